//! Runs of the program: their status, what they write, and whether a reader or a writer is marked
//! as failed.
use crate::args::owned_words;
use std::alloc::{AllocError, Global};
use std::io;
use std::io::{ErrorKind, Read, Write};
use tl_program::program::{Command, Fault, Input, Marked, Output, command, line, output, run};

const NEVER: usize = usize::MAX;

// How a writer takes what it is given: at most `most` bytes a call, with an error at the call
// `bad`, counted from 0, and with or without one at the first flush, of this kind. It would take
// what is tried again.
#[derive(Clone, Copy)]
struct Manner {
    most: usize,
    bad: usize,
    flush_fails: bool,
    kind: ErrorKind,
}

const WHOLE: Manner = Manner {
    most: usize::MAX,
    bad: NEVER,
    flush_fails: false,
    kind: ErrorKind::Interrupted,
};

const THREE_BYTES: Manner = Manner {
    most: 3,
    bad: NEVER,
    flush_fails: false,
    kind: ErrorKind::Interrupted,
};

const ONE_BYTE: Manner = Manner {
    most: 1,
    bad: NEVER,
    flush_fails: false,
    kind: ErrorKind::Interrupted,
};

const NO_BYTE: Manner = Manner {
    most: 0,
    bad: NEVER,
    flush_fails: false,
    kind: ErrorKind::Interrupted,
};

const FIRST_FAILS: Manner = Manner {
    most: 3,
    bad: 0,
    flush_fails: false,
    kind: ErrorKind::Interrupted,
};

const SECOND_FAILS: Manner = Manner {
    most: 3,
    bad: 1,
    flush_fails: false,
    kind: ErrorKind::Interrupted,
};

const FLUSH_FAILS: Manner = Manner {
    most: 100,
    bad: NEVER,
    flush_fails: true,
    kind: ErrorKind::Other,
};

// A writer of that manner.
#[derive(Drop)]
struct Narrow<'a> {
    manner: &'a Manner,
    calls: usize,
    flushes: usize,
    taken: &'a mut Vec<u8>,
}

impl<'a> Write for Narrow<'a> {
    fn write(&mut self, buffer: &[u8]) -> io::Result<usize> {
        let call = self.calls;
        self.calls = call.saturating_add(1);
        if call == self.manner.bad {
            return Err(io::Error::from(self.manner.kind));
        }
        let n = buffer.len().min(self.manner.most);
        self.taken.extend_from_slice(&buffer[..n])?;
        Ok(n)
    }

    fn flush(&mut self) -> io::Result<()> {
        let flush = self.flushes;
        self.flushes = flush.saturating_add(1);
        if flush == 0 && self.manner.flush_fails {
            Err(io::Error::from(self.manner.kind))
        } else {
            Ok(())
        }
    }
}

fn narrow_writer<'a>(manner: &'a Manner, taken: &'a mut Vec<u8>) -> Marked<Narrow<'a>> {
    Marked::new(Narrow {
        manner,
        calls: 0,
        flushes: 0,
        taken,
    })
}

// Prints a page to a writer of that manner, and answers the status and whether the writer is marked
// as failed.
fn print_by(alloc: Global, page: &[u8], manner: &Manner, taken: &mut Vec<u8>) -> (u8, bool) {
    let mut reader = Marked::new(page);
    let mut writer = narrow_writer(manner, taken);
    let status = run(alloc, &Command::Print, &mut reader, &mut writer);
    (status, writer.failed())
}

// Whether a page is printed with this status and these bytes, and the writer is marked as failed at
// status 4 alone.
fn prints(alloc: Global, page: &[u8], manner: &Manner, wanted: u8, print: &[u8]) -> bool {
    let mut taken = Vec::new(alloc);
    let (status, failed) = print_by(alloc, page, manner, &mut taken);
    status == wanted && failed == (wanted == 4) && taken.as_slice() == print
}

// Pages, how a writer takes the print, the status, and what is taken.
const PRINTS: &[(&[u8], Manner, u8, &[u8])] = &[
    (
        b"abc <p>test<span>a</span></p> def",
        WHOLE,
        0,
        b"abc <p>test<span>a</span></p> def",
    ),
    (b"", WHOLE, 0, b""),
    (b"a<", WHOLE, 0, b"a"),
    (b"<!--a", WHOLE, 0, b""),
    (b"<a><b></a></b>", WHOLE, 0, b"<a><b></b></a>"),
    (b"<!doctype html\xc3\xa9>", WHOLE, 0, b"\xef\xbf\xbd>"),
    (b"<p a='x\"y'>z</p>", WHOLE, 0, b"<p a=\"x\"y\">z</p>"),
    (b"<br /><p>test</p>", WHOLE, 0, b"<br><p>test</p>"),
    (
        b"<p a=1 b=2 c=3 id=i class=k a=4>",
        WHOLE,
        0,
        b"<p a=\"4\" b=\"2\" c=\"3\" id=\"i\" class=\"k\"></p>",
    ),
    (b"<command>x</command>", WHOLE, 0, b"<command>"),
    // A failing writer leaves a beginning.
    (b"<p>a</p>", THREE_BYTES, 0, b"<p>a</p>"),
    (b"<p>a</p>", ONE_BYTE, 0, b"<p>a</p>"),
    (b"<p>a</p>", FIRST_FAILS, 4, b""),
    (b"<p>a</p>", SECOND_FAILS, 4, b"<p>"),
    (b"<p>a</p>", NO_BYTE, 4, b""),
    (b"<p>a</p>", FLUSH_FAILS, 4, b"<p>a</p>"),
    // Of an empty print nothing is written, so no write fails, but it is flushed.
    (b"", FIRST_FAILS, 0, b""),
    (b"", FLUSH_FAILS, 4, b""),
    // What is no text is refused before the first write.
    (b"\xff", FIRST_FAILS, 2, b""),
    (b"<p>\xc3", FIRST_FAILS, 2, b""),
    (b"\xed\xa0\x80", FIRST_FAILS, 2, b""),
];

#[test]
fn prints_to_writers(rt: HostRuntime) {
    for (place, (page, manner, status, print)) in PRINTS.iter().enumerate() {
        assert!(rt;
            prints(rt.alloc(), page, manner, *status, print),
            "row {place}"
        );
    }
}

// A call of a writer, the bytes that it takes or its fault, and whether the writer is marked as
// failed then.
fn write_by(manner: &Manner, bytes: &[u8], taken: &mut Vec<u8>) -> (Option<usize>, bool) {
    let mut writer = narrow_writer(manner, taken);
    let answer = writer.write(bytes);
    (answer.ok(), writer.failed())
}

// Whether a write is answered so and passes on as many bytes, and the writer is marked as failed by
// a fault alone.
fn writes(alloc: Global, manner: &Manner, bytes: &[u8], wanted: Option<usize>) -> bool {
    let mut taken = Vec::new(alloc);
    let (answer, failed) = write_by(manner, bytes, &mut taken);
    answer == wanted && failed == wanted.is_none() && taken.len() == wanted.unwrap_or(0)
}

// How a writer takes bytes, the bytes, and how many of them it takes, or none where it answers a
// fault.
const WRITES: &[(Manner, &[u8], Option<usize>)] = &[
    (THREE_BYTES, b"abcd", Some(3)),
    (FIRST_FAILS, b"abcd", None),
    (NO_BYTE, b"abcd", None),
    (NO_BYTE, b"", Some(0)),
    (FIRST_FAILS, b"", None),
];

#[test]
fn writes_are_answered(rt: HostRuntime) {
    for (place, (manner, bytes, wanted)) in WRITES.iter().enumerate() {
        assert!(rt; writes(rt.alloc(), manner, bytes, *wanted), "row {place}");
    }
}

// A reader of a text in pieces of three bytes, with an error of this kind at the call `bad`,
// counted from 0. It would go on with the text where that is tried again.
#[derive(Drop)]
struct Pieces<'a> {
    left: &'a [u8],
    calls: usize,
    bad: usize,
    kind: ErrorKind,
}

impl<'a> Read for Pieces<'a> {
    fn read(&mut self, buffer: &mut [u8]) -> io::Result<usize> {
        let call = self.calls;
        self.calls = call.saturating_add(1);
        if call == self.bad {
            return Err(io::Error::from(self.kind));
        }
        let n = self.left.len().min(3).min(buffer.len());
        let (front, rest) = self.left.split_at(n);
        buffer[..n].copy_from_slice(front);
        self.left = rest;
        Ok(n)
    }
}

// Prints a page that comes in pieces, and answers the status and whether the reader is marked as
// failed.
fn printed_from_pieces(
    alloc: Global,
    page: &[u8],
    bad: usize,
    written: &mut Vec<u8>,
) -> (u8, bool) {
    let mut reader = Marked::new(Pieces {
        left: page,
        calls: 0,
        bad,
        kind: ErrorKind::Interrupted,
    });
    let mut writer = Marked::new(written);
    let status = run(alloc, &Command::Print, &mut reader, &mut writer);
    (status, reader.failed())
}

// Whether a page that comes in pieces is printed with this status and these bytes, and the reader
// is marked as failed at status 4 alone.
fn prints_pieces(alloc: Global, page: &[u8], bad: usize, wanted: u8, print: &[u8]) -> bool {
    let mut written = Vec::new(alloc);
    let (status, failed) = printed_from_pieces(alloc, page, bad, &mut written);
    status == wanted && failed == (wanted == 4) && written.as_slice() == print
}

// Pages, the call at which the reader fails, the status, and what is written.
const PIECES: &[(&[u8], usize, u8, &[u8])] = &[
    (b"<p>a</p>", NEVER, 0, b"<p>a</p>"),
    (b"<p>a</p>", 0, 4, b""),
    (b"<p>a</p>", 1, 4, b""),
    (b"<p>a</p>", 3, 4, b""),
    (b"", 0, 4, b""),
];

#[test]
fn prints_from_readers(rt: HostRuntime) {
    for (place, (page, bad, status, print)) in PIECES.iter().enumerate() {
        assert!(rt;
            prints_pieces(rt.alloc(), page, *bad, *status, print),
            "row {place}"
        );
    }
}

// Runs the command of the words, and answers the status.
fn run_words(
    alloc: Global,
    words: &[String],
    page: &[u8],
    written: &mut Vec<u8>,
) -> Result<u8, AllocError> {
    let mut reader = Marked::new(page);
    let mut writer = Marked::new(written);
    match command(alloc, words)? {
        Some(asked) => Ok(run(alloc, &asked, &mut reader, &mut writer)),
        None => Ok(2),
    }
}

// Runs the command of words, as rows give them.
fn run_row(
    alloc: Global,
    words: &[&str],
    page: &[u8],
    written: &mut Vec<u8>,
) -> Result<u8, AllocError> {
    let words = owned_words(alloc, words)?;
    run_words(alloc, &words, page, written)
}

// Whether words are answered with this status and these bytes.
fn are_answered(alloc: Global, words: &[&str], page: &[u8], wanted: u8, bytes: &[u8]) -> bool {
    let mut written = Vec::new(alloc);
    match run_row(alloc, words, page, &mut written) {
        Ok(status) => status == wanted && written.as_slice() == bytes,
        Err(_) => false,
    }
}

// Words, a page, the status, and what is written.
const ANSWERS: &[(&[&str], &[u8], u8, &[u8])] = &[
    (&["text"], b"a<p>b<br>c</p><!-- d -->", 0, b"abc"),
    (&["text"], b"", 0, b""),
    (&["text"], b"<p>\xc3\xa9</p> <q>x</q>", 0, b"\xc3\xa9 x"),
    (&["again"], b"<p a='x\"y'>z</p>", 0, b"<p a=\"x\" y>z</p>"),
    (&["print"], b"<p a='x\"y'>z</p>", 0, b"<p a=\"x\"y\">z</p>"),
    (&["again"], b"<p>x</p >", 0, b"<p>x</p>"),
    (&["again"], b"", 0, b""),
    (&["again"], b"<br/>x</br/>", 0, b"<br>x"),
    (&["again"], b"<p>\xff</p>", 2, b""),
    (
        &["edit", "set 0 href /x"],
        b"<a>y</a>",
        0,
        b"<a href=\"/x\">y</a>",
    ),
    (&["edit", ""], b"<a>y</a>", 0, b"<a>y</a>"),
    (
        &["edit", "pull 0 0\npush 0 2\npush 0 1"],
        b"<a><b></b></a><c></c>",
        0,
        b"<a><c></c><b></b></a><c></c>",
    ),
    (&["edit", "push 5 0"], b"<a></a>", 1, b""),
    (&["edit", "push 0 0"], b"<a></a>", 1, b""),
    (&["edit", "root 0 4294967295"], b"<a></a>", 1, b""),
    (&["edit", "push 0"], b"<a></a>", 2, b""),
    (&["select", "p"], b"<p>a</p><p>b</p>", 0, b"0\n2\n"),
    (&["select", "div p"], b"<div><p></p></div>", 0, b"1\n"),
    (&["select", "q"], b"<p>a</p>", 0, b""),
    (&["select", ",a"], b"<p>a</p>", 1, b""),
    (&["select", ",a"], b"", 1, b""),
    (&["select", ""], b"<p>a</p>", 1, b""),
    (&["select", ",a"], b"\xff", 2, b""),
    (&["select", ","], b"\xff", 2, b""),
    (&["id", "b"], b"<p id=a><p id=b><p id=b>", 0, b"1\n"),
    (&["id", "c"], b"<p id=a>", 0, b""),
    (&["id", ""], b"<p><p id=\"\">", 0, b"1\n"),
    (&["id", ""], b"<p>", 0, b""),
    (&["id", "a"], b"\xff", 2, b""),
    (
        &["class", "k"],
        b"<p class=\"k k\"><br class=k>",
        0,
        b"0\n1\n",
    ),
    (&["class", ""], b"<p class=\"k k\"><br class=k>", 0, b""),
    (&["class", "l"], b"<p class=k>", 0, b""),
];

#[test]
fn commands_of_words(rt: HostRuntime) {
    for (place, (words, page, status, bytes)) in ANSWERS.iter().enumerate() {
        assert!(rt;
            are_answered(rt.alloc(), words, page, *status, bytes),
            "row {place}"
        );
    }
}

// What a stream fails with. That memory ran out there is a fault like the others.
#[rattlefmt::skip]
static KINDS: [ErrorKind; 6] = [
    ErrorKind::Interrupted,
    ErrorKind::OutOfMemory,
    ErrorKind::WouldBlock,
    ErrorKind::UnexpectedEof,
    ErrorKind::WriteZero,
    ErrorKind::Other,
];

// Words, a page, and what is written where no stream fails.
type Streamed = (&'static [&'static str], &'static [u8], &'static [u8]);

#[rattlefmt::skip]
static STREAMED: [Streamed; 12] = [
    (&["print"], b"<p>a</p>", b"<p>a</p>"),
    (&["text"], b"a<p>b<br>c</p>", b"abc"),
    (&["again"], b"<p a='x\"y'>z</p>", b"<p a=\"x\" y>z</p>"),
    (&["edit", "name 0 b"], b"<a>y</a>", b"<b>y</b>"),
    (&["select", "p"], b"<p><p><b><p>", b"0\n1\n3\n"),
    (&["id", "i"], b"<p><p id=i>", b"1\n"),
    (&["class", "k"], b"<p class=k><p class=\"l k\">", b"0\n1\n"),
    // Nothing is written, so no write fails.
    (&["print"], b"", b""),
    (&["text"], b"<p></p>", b""),
    (&["select", "q"], b"<p>", b""),
    (&["id", "zz"], b"<p>", b""),
    (&["class", "zz"], b"<p>", b""),
];

// Runs the command of the words between two streams, and answers the status and whether each stream
// is marked as failed.
fn run_streams(
    alloc: Global,
    words: &[String],
    reader: Pieces<'_>,
    manner: &Manner,
    taken: &mut Vec<u8>,
) -> Result<(u8, bool, bool), AllocError> {
    let mut reader = Marked::new(reader);
    let mut writer = narrow_writer(manner, taken);
    match command(alloc, words)? {
        Some(asked) => {
            let status = run(alloc, &asked, &mut reader, &mut writer);
            Ok((status, reader.failed(), writer.failed()))
        }
        None => Ok((2, false, false)),
    }
}

// Whether a run with a reader that fails at a call, if it comes to that, and a writer of that
// manner has this status, writes so many bytes of what it is to write, and marks one stream as
// failed at status 4 and none else.
fn streams(
    alloc: Global,
    row: &Streamed,
    bad_read: usize,
    manner: &Manner,
    wanted: u8,
    len: usize,
) -> Result<bool, AllocError> {
    let (words, page, written) = *row;
    let words = owned_words(alloc, words)?;
    let mut taken = Vec::new(alloc);
    let reader = Pieces {
        left: page,
        calls: 0,
        bad: bad_read,
        kind: manner.kind,
    };
    let (status, read_failed, write_failed) = run_streams(
        alloc, &words, reader, manner, &mut taken,
    )?;
    Ok(
        status == wanted
            && read_failed == (wanted == 4 && bad_read != NEVER)
            && write_failed == (wanted == 4 && bad_read == NEVER)
            && written.get(..len) == Some(taken.as_slice()),
    )
}

// Where each write takes a byte and one of them fails, the bytes before it are written.
fn writes_fail(alloc: Global, row: &Streamed, kind: ErrorKind) -> Result<bool, AllocError> {
    let (_, _, written) = row;
    let len = written.len();
    for bad in 0..=len {
        let manner = Manner {
            most: 1,
            bad,
            flush_fails: false,
            kind,
        };
        let status = if bad < len { 4 } else { 0 };
        if !streams(alloc, row, NEVER, &manner, status, bad)? {
            return Ok(false);
        }
    }
    Ok(true)
}

// Where a read fails, be it the one that would say that the page ends, nothing is written.
fn reads_fail(alloc: Global, row: &Streamed, kind: ErrorKind) -> Result<bool, AllocError> {
    let (_, page, _) = row;
    let manner = Manner { kind, ..WHOLE };
    for bad in 0..=page.len().div_ceil(3) {
        if !streams(alloc, row, bad, &manner, 4, 0)? {
            return Ok(false);
        }
    }
    Ok(true)
}

// Where the flush fails, or a write takes nothing of something.
fn ends_fail(alloc: Global, row: &Streamed, kind: ErrorKind) -> Result<bool, AllocError> {
    let (_, _, written) = row;
    let len = written.len();
    let flush = Manner {
        kind,
        ..FLUSH_FAILS
    };
    let none = Manner { kind, ..NO_BYTE };
    let status = if len == 0 { 0 } else { 4 };
    Ok(streams(alloc, row, NEVER, &flush, 4, len)? && streams(alloc, row, NEVER, &none, status, 0)?)
}

fn all_fail(alloc: Global, row: &Streamed, kind: ErrorKind) -> bool {
    writes_fail(alloc, row, kind) == Ok(true)
        && reads_fail(alloc, row, kind) == Ok(true)
        && ends_fail(alloc, row, kind) == Ok(true)
}

#[test]
fn streams_that_fail(rt: HostRuntime) {
    for row in &STREAMED {
        let (words, _, _) = row;
        for kind in &KINDS {
            assert!(rt; all_fail(rt.alloc(), row, *kind), "{words:?} {kind:?}");
        }
    }
}

// What the command of the words gives of a page, or the number of its failure.
fn output_by(alloc: Global, words: &[&str], page: &[u8]) -> Result<String, u8> {
    let Ok(words) = owned_words(alloc, words) else {
        return Err(3);
    };
    match command(alloc, &words) {
        Ok(Some(asked)) => output(alloc, &asked, page).map_err(|failure| failure as u8),
        _ => Err(2),
    }
}

// Whether words give these bytes of a page, or with another status than 0 nothing and that status.
fn are_given(alloc: Global, words: &[&str], page: &[u8], status: u8, bytes: &[u8]) -> bool {
    match output_by(alloc, words, page) {
        Ok(text) => status == 0 && text.as_bytes() == bytes,
        Err(failure) => status == failure && bytes.is_empty(),
    }
}

#[test]
fn what_commands_give(rt: HostRuntime) {
    for (place, (words, page, status, bytes)) in ANSWERS.iter().enumerate() {
        assert!(rt;
            are_given(rt.alloc(), words, page, *status, bytes),
            "row {place}"
        );
    }
}

// A writer that was written to comes back with what it holds.
fn comes_back(alloc: Global, bytes: &[u8]) -> Result<bool, Fault> {
    let mut writer = Marked::new(Vec::new(alloc));
    let taken = writer.write(bytes)?;
    Ok(taken == bytes.len() && writer.into_inner().as_slice() == bytes)
}

#[test]
fn what_was_marked_comes_back(rt: HostRuntime) {
    assert!(rt; comes_back(rt.alloc(), b"abc") == Ok(true));
}

// Statuses, and their lines.
const LINES: &[(u8, &str)] = &[
    (0, ""),
    (1, "tlq: refused"),
    (2, "tlq: not understood"),
    (3, "tlq: out of memory"),
    (4, "tlq: read or write failed"),
    (5, ""),
    (255, ""),
];

#[test]
fn statuses_have_lines(rt: HostRuntime) {
    for (status, wanted) in LINES {
        assert!(rt; line(*status) == *wanted, "status {status}");
    }
}
