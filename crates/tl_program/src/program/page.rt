//! The page that is read, or that it is too long.
//!
//! One that is too long is read to its end, and not kept, so that endless input takes no more
//! memory than the longest page. Input that gives bytes for ever is answered as want of memory
//! after 2^64 reads.
ghost use Rattle.std.specs.Prelude.{◌≡◌, ◌||◌, IfErr, IfOk, IfSome, OnOk};
ghost use Rattle.std.specs.Io.KnownBytes.{IsAtEnd};
ghost use Rattle.tl_program.specs.Failure.{is_fault, IsReadFailure};
ghost use Rattle.tl_program.specs.Page.{IsPage};

use super::failure::Failure;
use super::streams::Input;
use std::alloc::Global;

/// What was read to its end.
#[derive(Drop)]
pub enum Page {
    /// All its bytes.
    Whole(Vec<u8>),
    /// It has more than 4294967295 bytes, of which none is kept.
    TooLong,
}

// Reads to the end, and keeps nothing.
fn skip_rest<R: Input>(reader: &mut R) -> Result<(), Failure>
    ensures end { OnOk result (IsAtEnd (R.seen reader.new).left) }
    ensures err { IfErr result IsReadFailure }
    ensures marks { (R.seen reader.new).has_failed
        ≡ ((R.seen reader.old).has_failed || is_fault result) }
{
    let mut buffer = [0u8; 65536];
    for _call in 0..u64::MAX {
        if reader.read(&mut buffer)? == 0 {
            return Ok(());
        }
    }
    // A reader that never ends is given up here.
    Err(Failure::OutOfMemory)
}

/// All that the reader has left. A page that is too long is read to its end too, and not kept.
pub fn read_page<R: Input>(alloc: Global, reader: &mut R) -> Result<Page, Failure>
    ensures page { IfOk result (λ page. IfSome (R.seen reader.old).left (IsPage page)) }
    ensures end { OnOk result (IsAtEnd (R.seen reader.new).left) }
    ensures err { IfErr result IsReadFailure }
    ensures marks { (R.seen reader.new).has_failed
        ≡ ((R.seen reader.old).has_failed || is_fault result) }
{
    let mut page = Vec::new(alloc);
    let mut buffer = [0u8; 65536];
    loop {
        let n = reader.read(&mut buffer)?;
        if n == 0 {
            return Ok(Page::Whole(page));
        }
        if page.len() + n > u32::MAX as usize {
            drop(page);
            skip_rest(reader)?;
            return Ok(Page::TooLong);
        }
        page.extend_from_slice(&buffer[..n])?;
    }
}
