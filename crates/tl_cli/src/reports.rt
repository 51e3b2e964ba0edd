//! What came of the pages, and the status of all.
ghost use Rattle.std.specs.Prelude.{◌≡◌};
ghost use Rattle.tl_cli.specs.Reports.{exit_status, is_last, no_page, status_of_reports, status_of_tally, with_answer};

use tl_page::Failure;

// The status of a program that nobody reads any more, as shells give it.
const UNREAD: u8 = 141;

/// The status of a program that found nothing.
pub const NOTHING: u8 = 1;

/// The status of a program that ends with a failure. 1 is none: it says that nothing is found.
pub fn exit_status(failure: Failure) -> u8
    ensures { result ≡ exit_status failure }
{
    match failure {
        Failure::Refused | Failure::NotUnderstood => 2,
        Failure::OutOfMemory => 3,
        Failure::Fault => 4,
    }
}

/// What came of a page.
#[derive(Clone, Copy)]
pub enum Answer {
    /// Something was found, or made.
    Found,
    /// Nothing was found.
    Nothing,
    /// There is nothing of it.
    Failed(Failure),
    /// What was made of it could not be written.
    Unwritten(Failure),
    /// Nobody reads what is written any more.
    Unread,
}

impl Answer {
    /// Whether what is asked is done with the page.
    pub fn is_made(&self) -> bool {
        match self {
            Answer::Found | Answer::Nothing => true,
            Answer::Failed(_) | Answer::Unwritten(_) | Answer::Unread => false,
        }
    }

    /// Whether no page after it is looked at: nothing more can be written, or it is only asked
    /// whether something is found, and it is.
    pub fn is_last(&self, is_quiet: bool) -> bool
        ensures { result ≡ is_last is_quiet self.now }
    {
        match self {
            Answer::Unwritten(_) | Answer::Unread => true,
            Answer::Found => is_quiet,
            Answer::Nothing | Answer::Failed(_) => false,
        }
    }
}

/// What came of the page in a file.
#[derive(Clone, Copy)]
pub struct Report<'f> {
    pub file: &'f str,
    pub answer: Answer,
}

/// Whether something was found in one of the pages so far, and the greatest status of those that
/// failed.
#[derive(Clone, Copy)]
pub struct Tally {
    pub is_found: bool,
    pub failed: u8,
}

impl Tally {
    /// That of no page.
    pub fn new() -> Self
        ensures { result ≡ no_page }
    {
        Tally {
            is_found: false,
            failed: 0,
        }
    }

    /// It with one more page.
    pub fn with_answer(self, answer: Answer) -> Self
        ensures { result ≡ with_answer self answer }
    {
        match answer {
            Answer::Found => Tally {
                is_found: true,
                ..self
            },
            Answer::Nothing => self,
            Answer::Failed(failure) | Answer::Unwritten(failure) => Tally {
                failed: self.failed.max(exit_status(failure)),
                ..self
            },
            Answer::Unread => Tally {
                failed: self.failed.max(UNREAD),
                ..self
            },
        }
    }

    /// The status of all: the greatest of those that failed, and else 0 where something was found,
    /// and 1 where nothing was. Where it is only asked whether something is found, and it is, 0.
    pub fn status(self, is_quiet: bool) -> u8
        ensures { result ≡ status_of_tally is_quiet self }
    {
        if is_quiet && self.is_found {
            0
        } else if self.failed != 0 {
            self.failed
        } else if self.is_found {
            0
        } else {
            NOTHING
        }
    }
}

/// The status of all pages.
pub fn status_of(is_quiet: bool, reports: &[Report<'_>]) -> u8
    ensures { result ≡ status_of_reports is_quiet reports.now }
{
    let mut tally = Tally::new();
    for report in reports {
        tally = tally.with_answer(report.answer);
    }
    tally.status(is_quiet)
}
