//! What is made of the pages in files.
ghost use Rattle.std.specs.Prelude.{◌≡◌, IfErr, IfOk, IfSome, take};
ghost use Rattle.tl_page.specs.declared.failure.Failure.TheVariants.{NotUnderstood, OutOfMemory};
ghost use Rattle.tl_safe_fit.specs.Words.{words_of};
ghost use Rattle.tl_cli.specs.Reports.{AreReports};
ghost use Rattle.tl_cli.specs.declared.reports.Answer.TheVariants.{Failed};

use crate::args::{Pages, Telling, Writing};
use crate::filename::{named_records, with_prefix};
use crate::job::Job;
use crate::reports::{Answer, Report, Tally, status_of};
use crate::task::{Made, Unmade};
use crate::unread::{report_media, report_unread};
use crate::visible::visible;
use std::alloc::{AllocError, Global};
use std::fs::File;
use std::io::{ErrorKind, IsTerminal, Read, Write};
use std::{fmt, io};
use tl_answers::Output;
use tl_encoding::{
    DecodeError, Encoding, decode, decode_strict, encoding_by_bytes, encoding_marked, encoding_of,
    media_of,
};
use tl_page::{Failure, text};

/// The files where none are said.
pub static STANDARD_INPUT: [&str; 1] = ["-"];

// One byte more than a page may have.
const TOO_LONG: u64 = 4294967296;

// The failure of an error of a read or a write.
fn failure_of(error: &io::Error) -> Failure {
    if error.kind() == ErrorKind::OutOfMemory {
        Failure::OutOfMemory
    } else {
        Failure::Fault
    }
}

/// Says on standard error why there is nothing of what is named.
pub fn report(rt: &HostRuntime, name: &str, failure: Failure) {
    let _ = eprintln!(rt; "tl: {name}: {failure}");
}

/// A failure, once it is said.
pub fn report_failure(rt: &HostRuntime, name: &str, failure: Failure) -> Failure
    ensures { result ≡ failure }
{
    report(rt, name, failure);
    failure
}

// What the system says of an error, without the number that it has there.
fn without_number(words: &str) -> &str {
    match words.split_once(" (os error ") {
        Some((words, _)) => words,
        None => words,
    }
}

/// Says on standard error why a read or a write of what is named failed, in the system's words.
pub fn report_error(rt: &HostRuntime, name: &str, error: &io::Error) -> Failure {
    let failure = failure_of(error);
    if failure == Failure::OutOfMemory {
        report(rt, name, failure);
    } else if let Ok(said) = format!(in rt.alloc(); "{error}") {
        let words = without_number(said.as_str());
        let _ = eprintln!(rt; "tl: {name}: {words}");
    } else {
        let _ = eprintln!(rt; "tl: {name}: {error}");
    }
    failure
}

// What a reader has left. Of a page that is too long no more is read than shows it.
fn page_in<R: Read + Drop>(alloc: Global, reader: R) -> io::Result<Vec<u8>>
    ensures { IfOk result (λ page. IfSome (R.remaining reader)
        (λ bytes. page.items ≡ take 4294967296 bytes)) }
{
    let mut page = Vec::new(alloc);
    reader.take(TOO_LONG).read_to_end(&mut page)?;
    Ok(page)
}

// Says that a terminal is read, since nothing else shows that the program waits.
fn tell_terminal(rt: &HostRuntime) {
    if rt.stdin().is_terminal() {
        let _ = eprintln!(rt; "tl: reading from the terminal; Ctrl-D ends the page");
    }
}

/// The page in a file, or on standard input.
pub fn page_of(rt: &HostRuntime, file: &str) -> io::Result<Vec<u8>> {
    if file == "-" {
        tell_terminal(rt);
        page_in(rt.alloc(), rt.stdin())
    } else {
        File::open(rt, file).and_then(|opened| page_in(rt.alloc(), opened))
    }
}

/// Writes to standard output.
pub fn write(rt: &HostRuntime, bytes: &[u8]) -> io::Result<()> {
    let mut out = rt.stdout();
    out.write_all(bytes).and_then(|()| out.flush())
}

/// What comes of a page that can't be written. Where nobody reads what is written, nothing is said.
pub fn unwritten(rt: &HostRuntime, error: &io::Error) -> Answer {
    if error.kind() == ErrorKind::BrokenPipe {
        Answer::Unread
    } else {
        Answer::Unwritten(report_error(rt, "standard output", error))
    }
}

/// The status where what was asked for in place of pages can't be written, once that is said.
pub fn unwritten_status(rt: &HostRuntime, error: &io::Error) -> u8 {
    Tally::new().with_answer(unwritten(rt, error)).status(false)
}

// What a page says, without the control characters that a terminal obeys where one gets it.
fn shown(rt: &HostRuntime, bytes: Vec<u8>) -> Result<Vec<u8>, AllocError> {
    if rt.stdout().is_terminal() {
        visible(rt.alloc(), &bytes)
    } else {
        Ok(bytes)
    }
}

/// Writes to standard output what a page says, without the control characters that a terminal
/// obeys where it is one.
pub fn write_shown(rt: &HostRuntime, bytes: &[u8]) -> Result<io::Result<()>, AllocError> {
    if rt.stdout().is_terminal() {
        let shown = visible(rt.alloc(), bytes)?;
        Ok(write(rt, &shown))
    } else {
        Ok(write(rt, bytes))
    }
}

// Bytes with the name of their file before each line or record, where there are several.
fn named_text(
    rt: &HostRuntime,
    job: &Job<'_, '_>,
    pages: &Pages<'_>,
    file: &str,
    bytes: Vec<u8>,
) -> Result<Vec<u8>, Failure> {
    if !pages.are_named() || job.is_without_names() {
        return Ok(bytes);
    }
    if let Some(columns) = job.columns() {
        return Ok(named_records(rt.alloc(), columns, file, &bytes)?);
    }
    let [start, middle, end_of_name] = pages.terminal.name_colors();
    let name = format!(in rt.alloc(); "{start}{file}{middle}:{end_of_name}")?;
    let end = if pages.ends_with_zero { 0 } else { b'\n' };
    Ok(with_prefix(rt.alloc(), name.as_str(), end, &bytes)?)
}

// What is written of a page.
fn page_output(
    rt: &HostRuntime,
    job: &Job<'_, '_>,
    pages: &Pages<'_>,
    file: &str,
    output: Output,
) -> Result<Vec<u8>, Failure> {
    match pages.writing {
        Writing::Answers => named_text(rt, job, pages, file, shown(rt, output.bytes)?),
        Writing::Names if output.is_found => {
            let end = pages.end();
            let [start, _, end_of_name] = pages.terminal.name_colors();
            Ok(format!(in rt.alloc(); "{start}{file}{end_of_name}{end}")?.into_bytes())
        }
        Writing::Names | Writing::Nothing => Ok(Vec::new(rt.alloc())),
    }
}

/// What a page is in: what its byte-order mark says, what was said, or what it says.
pub fn encoding_in(pages: &Pages<'_>, page: &[u8]) -> Encoding {
    let said = match pages.encoding {
        Telling::Pages => return encoding_of(page),
        Telling::Bytes => return encoding_by_bytes(page),
        Telling::Label(said) => said,
    };
    match encoding_marked(page) {
        Some(encoding) => encoding,
        None => said,
    }
}

// The text of a page.
fn text_of(
    rt: &HostRuntime,
    pages: &Pages<'_>,
    page: Vec<u8>,
    encoding: Encoding,
) -> Result<String, DecodeError> {
    if pages.is_strict {
        decode_strict(rt.alloc(), page, encoding)
    } else {
        Ok(decode(rt.alloc(), page, encoding)?)
    }
}

/// Says on standard error why there is nothing of a page.
pub fn not_understood<E: fmt::Display>(rt: &HostRuntime, file: &str, error: &E) -> Answer
    ensures { result ≡ Failed NotUnderstood }
{
    let _ = eprintln!(rt; "tl: {file}: {error}");
    Answer::Failed(Failure::NotUnderstood)
}

// Why bytes are no text, where it isn't said what pages are in: that may be all that is wrong.
#[derive(Clone, Copy)]
struct UnsaidEncoding<'e> {
    error: &'e DecodeError,
}

impl fmt::Display for UnsaidEncoding<'_> {
    fn fmt<W: fmt::Write>(&self, f: &mut fmt::Formatter<W>) -> fmt::Result {
        let error = self.error;
        write!(f, "{error}; --encoding names the encoding")
    }
}

/// Says on standard error why there is no text of a page.
pub fn no_text(rt: &HostRuntime, pages: &Pages<'_>, file: &str, error: &DecodeError) -> Answer
    ensures { result ≡ Failed NotUnderstood }
{
    match pages.encoding {
        Telling::Label(_) => not_understood(rt, file, error),
        Telling::Pages | Telling::Bytes => not_understood(rt, file, &UnsaidEncoding { error }),
    }
}

// Says on standard error why a page is not understood: it is no text, or too long.
fn no_page(rt: &HostRuntime, file: &str, page: &[u8]) -> Answer
    ensures { result ≡ Failed NotUnderstood }
{
    if let Err(error) = text(page) {
        let _ = not_understood(rt, file, &error);
    }
    Answer::Failed(Failure::NotUnderstood)
}

// What is too large of a page that is text.
#[derive(Clone, Copy)]
enum TooLarge {
    Tree,
    TreeAt(usize),
    TableAt(usize),
    Url,
}

impl fmt::Display for TooLarge {
    fn fmt<W: fmt::Write>(&self, f: &mut fmt::Formatter<W>) -> fmt::Result {
        match self {
            TooLarge::Tree => f.write_str("its tree is too large"),
            TooLarge::TreeAt(place) => write!(f, "its tree is out of proportion at byte {place}"),
            TooLarge::TableAt(place) => write!(f, "the table at byte {place} has too many values"),
            TooLarge::Url => f.write_str("a URL in it is too long"),
        }
    }
}

/// Says on standard error why nothing is made of a page, but for what fails whatever it says.
pub fn unmade(rt: &HostRuntime, file: &str, text: &[u8], why: Unmade) -> Result<Answer, Failure> {
    match why {
        Unmade::Failed(Failure::NotUnderstood) => Ok(no_page(rt, file, text)),
        Unmade::Failed(failure) => Err(failure),
        Unmade::OutOfProportion(place) => Ok(not_understood(rt, file, &TooLarge::TreeAt(place))),
        Unmade::TooLarge => Ok(not_understood(rt, file, &TooLarge::Tree)),
        Unmade::LargeTable(place) => Ok(not_understood(rt, file, &TooLarge::TableAt(place))),
        Unmade::LongUrl => Ok(not_understood(rt, file, &TooLarge::Url)),
    }
}

// Says on standard error what is told beside a page.
fn tell(rt: &HostRuntime, told: &[u8]) {
    let _ = rt.stderr().write_all(told);
}

// What comes of the text of a page.
fn process_text(
    rt: &HostRuntime,
    job: &Job<'_, '_>,
    pages: &Pages<'_>,
    file: &str,
    text: &[u8],
) -> Result<Answer, Failure> {
    let made = match job.execute(rt.alloc(), pages, file, text) {
        Ok(made) => made,
        Err(why) => {
            pages.terminal.clear(rt);
            return unmade(rt, file, text, why);
        }
    };
    let Made { output, told } = made;
    let is_found = output.is_found;
    let written = page_output(rt, job, pages, file, output)?;
    pages.terminal.clear(rt);
    tell(rt, &told);
    match write(rt, &written) {
        Ok(()) if is_found => Ok(Answer::Found),
        Ok(()) => Ok(Answer::Nothing),
        Err(error) => Ok(unwritten(rt, &error)),
    }
}

// What comes of the bytes of a page.
fn process_bytes(
    rt: &HostRuntime,
    job: &Job<'_, '_>,
    pages: &Pages<'_>,
    file: &str,
    page: Vec<u8>,
) -> Result<Answer, Failure> {
    if let Some(media) = media_of(&page) {
        pages.terminal.clear(rt);
        return Ok(report_media(rt, file, media));
    }
    let encoding = encoding_in(pages, &page);
    let text = match text_of(rt, pages, page, encoding) {
        Ok(text) => text,
        Err(DecodeError::OutOfMemory) => return Err(Failure::OutOfMemory),
        Err(error) => {
            pages.terminal.clear(rt);
            return Ok(no_text(rt, pages, file, &error));
        }
    };
    process_text(rt, job, pages, file, text.as_bytes())
}

// What comes of the page in a file.
fn process_page(
    rt: &HostRuntime,
    job: &Job<'_, '_>,
    pages: &Pages<'_>,
    file: &str,
) -> Result<Answer, Failure> {
    match page_of(rt, file) {
        Ok(page) => {
            pages.terminal.show_page(rt, page.len());
            process_bytes(rt, job, pages, file, page)
        }
        Err(error) => {
            pages.terminal.clear(rt);
            Ok(Answer::Failed(report_unread(rt, file, &error)))
        }
    }
}

// What comes of the page in a file; a failure is said on standard error.
fn answer(rt: &HostRuntime, job: &Job<'_, '_>, pages: &Pages<'_>, file: &str) -> Answer {
    match process_page(rt, job, pages, file) {
        Ok(answer) => answer,
        Err(failure) => {
            pages.terminal.clear(rt);
            report(rt, file, failure);
            Answer::Failed(failure)
        }
    }
}

// What comes of the pages in files, one after the other, up to the first that can't be written;
// where it is only asked whether something is found, up to the first where it is.
fn process_files<'f>(
    rt: &HostRuntime,
    job: &Job<'_, '_>,
    pages: &Pages<'_>,
    is_quiet: bool,
    files: &[&'f str],
) -> Result<Vec<Report<'f>>, AllocError>
    ensures { IfOk result (λ reports. AreReports is_quiet (words_of files.now) reports.items) }
{
    let mut reports = Vec::with_capacity(rt.alloc(), files.len())?;
    for file in files {
        pages.terminal.show_file(rt, reports.len(), files.len());
        let answer = answer(rt, job, pages, file);
        reports.push(Report { file, answer })?;
        if answer.is_last(is_quiet) {
            return Ok(reports);
        }
    }
    Ok(reports)
}

/// Does what is asked with each page in order, and answers the status of all. A page that can't be
/// read or fails is said on standard error, and those after it are done; where nothing can be
/// written, that is said once, and none is.
pub fn process_pages(rt: &HostRuntime, job: &Job<'_, '_>, pages: &Pages<'_>) -> Result<u8, Failure>
    ensures { IfErr result (λ failure. failure ≡ OutOfMemory) }
{
    let files = if pages.files.is_empty() {
        STANDARD_INPUT.as_slice()
    } else {
        pages.files.as_slice()
    };
    let is_quiet = pages.writing == Writing::Nothing;
    match process_files(rt, job, pages, is_quiet, files) {
        Ok(reports) => Ok(status_of(is_quiet, &reports)),
        Err(AllocError) => Err(report_failure(rt, "files", Failure::OutOfMemory)),
    }
}
