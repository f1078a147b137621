// What a plan is told, and what it answers.
use tasks::task::Candidate;

#[derive(Clone, Copy, Debug)]
pub enum Command<'a> {
    Load(&'a [u8]),
    Add(Candidate),
    Drop(u8),
    Start,
    Advance(u32),
    Stop,
    Report,
}

// A count is meant whether the search is finished or not, so the flag stands beside it. The fields stand here and not in a struct, since the
// structs of the calls are those of the search and the plan, which this crate does not use.
#[derive(Clone, Copy, PartialEq, Eq, Debug)]
pub enum Outcome {
    Done,
    Started,
    Advanced {
        count: u32,
        finished: bool,
    },
    Reported {
        bytes: usize,
        first: u64,
        second: u64,
    },
}
