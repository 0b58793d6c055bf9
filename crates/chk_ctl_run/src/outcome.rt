//! How a look ends.

ghost use Rattle.std.specs.Prelude.{◌≡◌};
ghost use Rattle.chk_record_index.specs.Faults.{IsOfRead};
ghost use Rattle.chk_ctl_run.specs.Outcomes.{listed_as, outcome_of, outcome_of_fault};
ghost use Rattle.chk_ctl_run.specs.Outcomes.{outcome_of_job, outcome_status, shown_as, told_as};

use chk_bytes::Word;
use chk_ctl_cat::{Came, LookFault};
use chk_ctl_line::Usage;
use chk_record_index::JobFault;
use chk_site::{Call, OutsideFault};
use std::fmt;
use std::fmt::{Display, Formatter};

/// How a look ends. Each has a status, and each but `Done` a message to the operator.
#[derive(Debug, Drop)]
pub enum Outcome {
    /// All was done; 0.
    Done,
    /// There is no `archive/book`; 1.
    NoArchive,
    /// Of several stores this book isn't there; 1.
    NoBook { name: Word },
    /// The store has no such stream, or no checkpoint has one of the log; 1.
    Unknown,
    /// The records of the stream end before its end in the book; 1.
    Short,
    /// The file isn't in its grammar from its byte `at` on, or its record there doesn't go on
    /// from those before it; 1.
    Damaged { name: Word, at: u64 },
    /// Files of the store aren't in their grammar, and a line was printed for each; 1.
    Unsound,
    /// Chunks are set aside, since bytes before them aren't archived; 1.
    Waits,
    /// A checkpoint hasn't passed the oldest generation of the log, or that changed meanwhile; 1.
    Behind,
    /// A log hasn't all that the archive of its stream has, to the byte; 1.
    Differs,
    /// A start would refuse or skip what was printed, or a collector doesn't answer; 1.
    Found,
    /// The words aren't a command; 2.
    Usage(Usage),
    /// This call on the outside failed; 3.
    Outside { call: Call },
    /// The initial file isn't there; 3.
    NoFile,
    /// The segment `name` isn't there, and two books in turn named it, or many each another one;
    /// 3.
    Gone { name: Word },
    /// There was no memory; 4.
    NoMemory,
}

impl Outcome {
    /// The status with which the program ends.
    pub fn status(&self) -> u8
        ensures { result ≡ outcome_status self.now }
    {
        match self {
            Outcome::Done => 0,
            Outcome::NoArchive | Outcome::NoBook { .. } => 1,
            Outcome::Unknown | Outcome::Short | Outcome::Damaged { .. } => 1,
            Outcome::Unsound | Outcome::Behind | Outcome::Waits | Outcome::Found => 1,
            Outcome::Differs => 1,
            Outcome::Usage(_) => 2,
            Outcome::Outside { .. } | Outcome::Gone { .. } | Outcome::NoFile => 3,
            Outcome::NoMemory => 4,
        }
    }
}

/// What is told of it, in one line without a newline; of words that aren't a command the line of
/// their usage is told instead.
impl Display for Outcome {
    fn fmt<W: fmt::Write>(&self, f: &mut Formatter<W>) -> fmt::Result {
        match self {
            Outcome::Done => Ok(()),
            Outcome::NoArchive => write!(f, "there is no archive/book"),
            Outcome::NoBook { name } => {
                let name = name.as_str();
                write!(f, "there is no {name}")
            }
            Outcome::Unknown => write!(f, "no such stream"),
            Outcome::Short => write!(f, "the records end before the end in the book"),
            Outcome::Damaged { name, at } => {
                let name = name.as_str();
                write!(f, "damaged {name} {at}")
            }
            Outcome::Unsound => write!(f, "files are damaged"),
            Outcome::Waits => write!(f, "chunks wait for bytes that aren't archived"),
            Outcome::Behind => write!(f, "the oldest generation isn't read to its end"),
            Outcome::Differs => write!(f, "a log hasn't all that the archive has"),
            Outcome::Found => write!(f, "a start would refuse or skip some of it"),
            Outcome::Usage(usage) => write!(f, "{}", usage.text().trim_end()),
            Outcome::Outside { call } => write!(f, "outside {}", call.name()),
            Outcome::NoFile => write!(f, "the initial file isn't there"),
            Outcome::Gone { name } => {
                let name = name.as_str();
                write!(f, "{name} isn't there")
            }
            Outcome::NoMemory => write!(f, "out of memory"),
        }
    }
}

/// The outcome of what was printed of a stream.
pub(crate) fn shown_as(given: Result<Came, LookFault>) -> Outcome
    ensures { result ≡ shown_as given }
{
    match given {
        Ok(came) => outcome_of(came),
        Err(fault) => outcome_of_fault(fault),
    }
}

/// The outcome of the lines of streams.
pub(crate) fn listed_as(given: Result<(), LookFault>) -> Outcome
    ensures { result ≡ listed_as given }
{
    match given {
        Ok(()) => Outcome::Done,
        Err(fault) => outcome_of_fault(fault),
    }
}

/// The outcome of one line.
pub fn told_as(given: Result<(), OutsideFault>) -> Outcome
    ensures { result ≡ told_as given }
{
    match given {
        Ok(()) => Outcome::Done,
        Err(OutsideFault::Outside { call }) => Outcome::Outside { call },
        Err(OutsideFault::NoMemory) => Outcome::NoMemory,
    }
}

/// What a refusal of a read of the job's comes to.
pub fn outcome_of_job(fault: JobFault) -> Outcome
    requires { IsOfRead fault }
    ensures { result ≡ outcome_of_job fault }
{
    match fault {
        JobFault::Outside { call } => Outcome::Outside { call },
        JobFault::Damaged { name, at } => Outcome::Damaged { name, at },
        JobFault::Spent { .. } => unreachable!(),
        JobFault::NoMemory => Outcome::NoMemory,
    }
}

/// What a stream that was printed came to.
fn outcome_of(came: Came) -> Outcome
    ensures { result ≡ outcome_of came }
{
    match came {
        Came::Whole => Outcome::Done,
        Came::Short => Outcome::Short,
        Came::Unknown => Outcome::Unknown,
    }
}

/// What a refusal comes to.
fn outcome_of_fault(fault: LookFault) -> Outcome
    ensures { result ≡ outcome_of_fault fault }
{
    match fault {
        LookFault::Outside { call } => Outcome::Outside { call },
        LookFault::Damaged { name, at } => Outcome::Damaged { name, at },
        LookFault::Gone { name } => Outcome::Gone { name },
        LookFault::NoMemory => Outcome::NoMemory,
    }
}
