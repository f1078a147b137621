// How far a plan is.
ghost use Rattle.std.specs.Prelude.{◌≡◌};
ghost use Rattle.plan.specs.States.{reportable};

use tasks::fault::PlanFault;

#[derive(Clone, Copy, PartialEq, Eq, Debug)]
pub enum State {
    Open,
    Searching,
    Finished,
}

impl State {
    // The best order is told of a finished plan alone.
    pub(crate) fn must_be_finished(self) -> Result<(), PlanFault>
        ensures { result ≡ reportable self }
    {
        match self {
            State::Open => Err(PlanFault::Open),
            State::Searching => Err(PlanFault::Unfinished),
            State::Finished => Ok(()),
        }
    }
}
