// What a planner answers, and why it refuses. An answer tells a refusal by its number, since each planner has its own names for refusals.
ghost use Rattle.std.specs.Prelude.{◌≡◌, ◌++◌, IfOk, MatchResult, Some, codes, decimal, string_bytes};
ghost use Rattle.second.specs.Reasons.{number_of, line, refused_text};
ghost use Rattle.second.specs.declared.reply.Failure.TheVariants as failure;
ghost use Rattle.second.specs.declared.reply.Reply.TheVariants as reply;

use std::alloc::{AllocError, Global};
use std::fmt;
use thiserror::Error;

#[derive(Clone, Copy, PartialEq, Eq, Debug)]
pub enum Reply {
    Done,
    Started,
    // a count is meant whether the walk is finished or not; the types are this planner's own
    Advanced { count: u64, finished: bool },
    Reported { bytes: u64, first: u64, second: u64 },
    Answered(Option<u64>),
    Listed { bytes: u64 },
    // an arm and no Err, since refusals too are compared and printed as answers
    Refused { number: u64, record: u64 },
}

// A refusal that names no record.
pub fn turned_down(number: u64) -> Reply
    ensures { result ≡ reply.Refused number 0 }
{
    Reply::Refused { number, record: 0 }
}

fn refused_line(heap: Global, number: u64, record: u64) -> Result<String, AllocError>
    ensures { IfOk result (λ text. string_bytes text ≡ refused_text number «record») }
{
    let mut text = format!(in heap; "refused {number} record {record}")?;
    text.push('\n')?;
    Ok(text)
}

// The line of a refusal; empty for any other answer.
pub fn line_of(heap: Global, reply: Reply) -> Result<String, AllocError>
    ensures { IfOk result (λ text. string_bytes text ≡ line reply) }
{
    match reply {
        Reply::Refused { number, record } => refused_line(heap, number, record),
        _ => Ok(String::new(heap)),
    }
}

// Why a planner refuses, by the numbers that refusals are told by.
#[derive(Clone, Copy, PartialEq, Eq, Debug)]
pub enum Reason {
    WrongLength = 1,
    UnknownFormat = 2,
    SpareBit = 3,
    OtherKind = 4,
    OutOfRange = 5,
    TooLittleTime = 6,
    SectionTooLong = 7,
    NotForTest = 8,
    IdTaken = 9,
    TooManyTasks = 10,
    UnknownId = 11,
    UnderWay = 12,
    NotBegun = 13,
    NotFinished = 14,
    NoTasks = 15,
    AlwaysLate = 16,
    TooManySteps = 17,
    BufferTooSmall = 18,
    AboveItself = 19,
    NoRecord = 20,
}

impl From<Reason> for u64 {
    ghost from_gives = { λ reason n. n ≡ number_of reason };

    fn from(reason: Reason) -> u64 {
        reason as u64
    }
}

impl Reason {
    // With the record of a table that is refused.
    pub(crate) fn in_record(self, number: u64) -> Refusal
        ensures { result ≡ record { reason = self; «record» = number } }
    {
        Refusal {
            reason: self,
            record: number,
        }
    }
}

// A refusal, and the record that it names, or 0, the number that the line of a refusal then shows.
#[derive(Clone, Copy, PartialEq, Eq, Debug)]
pub struct Refusal {
    pub reason: Reason,
    pub record: u64,
}

impl From<Reason> for Refusal {
    ghost from_gives = { λ reason r. r ≡ record { reason = reason; «record» = 0 } };

    fn from(reason: Reason) -> Refusal {
        reason.in_record(0)
    }
}

impl fmt::Display for Refusal {
    ghost output = { λ r. Some (codes "refused " ++ decimal (number_of r.reason) ++ codes " record " ++ decimal r.«record») };

    fn fmt<W: fmt::Write>(&self, f: &mut fmt::Formatter<W>) -> fmt::Result {
        let number = u64::from(self.reason);
        let record = self.record;
        write!(f, "refused {number} record {record}")
    }
}

impl From<Refusal> for Reply {
    ghost from_gives = { λ refusal r. r ≡ reply.Refused (number_of refusal.reason) refusal.«record» };

    fn from(refusal: Refusal) -> Reply {
        Reply::Refused {
            number: refusal.reason.into(),
            record: refusal.record,
        }
    }
}

// Why there is no answer: the planner refuses, or has no memory for it.
#[derive(Debug, Drop, Error)]
pub enum Failure {
    #[error("{0}")]
    Refused(#[from] Refusal),
    #[error(transparent)]
    Memory(#[from(alloc)] AllocError),
}

impl Failure {
    // The refusal, or the want of memory.
    pub fn refusal(self) -> Result<Refusal, AllocError>
        ensures { MatchResult result (λ r. self ≡ failure.Refused r) (λ e. self ≡ failure.Memory e) }
    {
        match self {
            Failure::Refused(refusal) => Ok(refusal),
            Failure::Memory(error) => Err(error),
        }
    }
}

impl From<Reason> for Failure {
    ghost from_gives = { λ reason f. f ≡ failure.Refused (record { reason = reason; «record» = 0 }) };

    fn from(reason: Reason) -> Failure {
        Failure::Refused(reason.into())
    }
}
