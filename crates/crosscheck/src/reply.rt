// The answers of the first planner in the words of the second, and what is printed where they differ. Functions say it, since neither
// planner's types are this crate's, so it may not write a `From` between them. The second planner could, but it is not to know the faults
// and outcomes of the first.
use anyhow::anyhow;
use law::command::Outcome;
use second::reply::Reply;
use std::fmt::Debug;
use tasks::fault::Fault;

pub fn of_fault(fault: Fault) -> Reply {
    Reply::Refused {
        number: u64::from(fault.number()),
        record: u64::from(fault.record()),
    }
}

fn of_done(outcome: Outcome) -> Reply {
    match outcome {
        Outcome::Done => Reply::Done,
        Outcome::Started => Reply::Started,
        Outcome::Advanced { count, finished } => Reply::Advanced {
            count: u64::from(count),
            finished,
        },
        Outcome::Reported {
            bytes,
            first,
            second,
        } => Reply::Reported {
            bytes: bytes as u64,
            first,
            second,
        },
    }
}

// An answer of the first planner to a command.
pub fn of_outcome(answer: Result<Outcome, Fault>) -> Reply {
    answer.map_or_else(of_fault, of_done)
}

// An answer of the first planner to a question.
pub fn of_answer(answer: Result<Option<u32>, Fault>) -> Reply {
    answer.map_or_else(of_fault, |time| Reply::Answered(time.map(u64::from)))
}

// Prints a difference: what was asked over which table, and both answers.
pub fn differ<A: Debug, B: Debug>(
    rt: &HostRuntime,
    what: &str,
    table: &[u8],
    first: &A,
    second: &B,
) -> anyhow::Result<()> {
    print!(rt; "differ in {what}, table ")?;
    // byte by byte, since `Debug` of a slice prints brackets and commas
    for byte in table {
        print!(rt; "{byte:02x}")?;
    }
    println!(rt; ", first {first:?}, second {second:?}")?;
    Err(anyhow!("the planners differ"))
}
