//! What is said of what is given as a page and is none.
ghost use Rattle.std.specs.Prelude.{◌≡◌};
ghost use Rattle.tl_cli.specs.declared.reports.Answer.TheVariants.{Failed};
ghost use Rattle.tl_page.specs.declared.failure.Failure.TheVariants.{NotUnderstood};

use crate::pages::{not_understood, report_error};
use crate::reports::Answer;
use std::io::ErrorKind;
use std::{fmt, io};
use tl_encoding::Media;
use tl_page::Failure;

// What bytes are that hold no page.
#[derive(Clone, Copy)]
struct NoPage {
    media: Media,
}

impl fmt::Display for NoPage {
    fn fmt<W: fmt::Write>(&self, f: &mut fmt::Formatter<W>) -> fmt::Result {
        f.write_str(match self.media {
            Media::Gif => "not a page, but a picture (GIF)",
            Media::Gzip => "not a page, but gzip data; gzip -dc unpacks it",
            Media::Jpeg => "not a page, but a picture (JPEG)",
            Media::Pdf => "not a page, but a PDF; pdftohtml makes pages of it",
            Media::Png => "not a page, but a picture (PNG)",
            Media::WebP => "not a page, but a picture (WebP)",
            Media::Zip => "not a page, but a zip archive; unzip -p unpacks it",
        })
    }
}

/// Says on standard error what bytes are that hold no page.
pub fn report_media(rt: &HostRuntime, file: &str, media: Media) -> Answer
    ensures { result ≡ Failed NotUnderstood }
{
    not_understood(rt, file, &NoPage { media })
}

// Whether a word that is no file is the address of a page.
fn is_address(word: &str) -> bool {
    word.starts_with("http://") || word.starts_with("https://")
}

/// Says on standard error why the page in a file can't be read. Of a folder, and of an address in
/// the place of a file, it says what to write.
pub fn report_unread(rt: &HostRuntime, file: &str, error: &io::Error) -> Failure {
    match error.kind() {
        ErrorKind::IsADirectory if file != "-" => {
            let _ = eprintln!(rt;
                "tl: {file}: is a directory; {file}/*.html names the pages in it"
            );
            Failure::Fault
        }
        ErrorKind::NotFound if is_address(file) => {
            let _ = eprintln!(rt;
                "tl: {file}: no such file; curl -sL '{file}' | tl .. reads a page of the web"
            );
            Failure::Fault
        }
        _ => report_error(rt, file, error),
    }
}
