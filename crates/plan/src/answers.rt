// What the calls of a plan answer.
ghost use Rattle.std.specs.Prelude.{◌≡◌};
ghost use Rattle.plan.specs.Answers.{advanced, reported_outcome};

use law::command::Outcome;

// How far an advance got.
pub type Progress = search::progress::Progress<u32>;

#[derive(Clone, Copy, PartialEq, Eq, Debug)]
pub struct Reported {
    // how many bytes were written
    pub bytes: usize,
    // the two numbers of the cost
    pub first: u64,
    pub second: u64,
}

// An advance as an outcome: no `From`, since both types are of other crates.
pub(crate) fn advanced(progress: Progress) -> Outcome
    ensures { result ≡ advanced progress }
{
    Outcome::Advanced {
        count: progress.count,
        finished: progress.finished,
    }
}

impl From<Reported> for Outcome {
    ghost from_gives = { λ r o. o ≡ reported_outcome r };

    fn from(reported: Reported) -> Outcome {
        Outcome::Reported {
            bytes: reported.bytes,
            first: reported.first,
            second: reported.second,
        }
    }
}
