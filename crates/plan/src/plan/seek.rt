// Beginning a search, examining vertices, and giving a search up.
ghost use Rattle.std.specs.Prelude.{◌≡◌, ◌<◌, ◌≤◌, false, MatchResult};
ghost use Rattle.tasks.specs.declared.fault.PlanFault.TheVariants.{Steps};
ghost use Rattle.law.specs.declared.command.Command.TheVariants.{Start, Advance, Stop};
ghost use Rattle.law.specs.declared.command.Outcome.TheVariants.{Done, Started};
ghost use Rattle.law.specs.Obey.{is_searching, is_open};
ghost use Rattle.plan.specs.Answers.{told, advanced};
ghost use Rattle.plan.specs.Calls.{Served};
ghost use Rattle.plan.specs.Model.{model, means};

use super::Plan;
use crate::answers::Progress;
use crate::state::State;
use costs::cost::Cost;
use response::test::ResponseTest;
use search::problem::Problem;
use tasks::fault::{Fault, PlanFault};

// The most vertices that one advance examines.
const MOST_STEPS: u32 = 1_000_000;

fn check_steps(count: u32) -> Result<(), PlanFault>
    ensures { MatchResult result (λ _. count ≤ 1000000) (λ e. (1000000 < count) × (e ≡ Steps)) }
{
    if count > MOST_STEPS {
        return Err(PlanFault::Steps);
    }
    Ok(())
}

impl<T: ResponseTest + Drop, C: Cost + Drop> Plan<T, C> {
    // Makes the first order, and begins a search with it.
    pub(crate) fn begin_search(&mut self) -> Result<(), Fault>
        requires { is_searching (model self.old).stage ≡ false }
        ensures { Served (means T.Admission T.ResponseTest.own C.Cost self.old) Start self.old self.new (told (λ _. Started) result) }
    {
        let held = self.tasks.as_slice();
        if held.is_empty() {
            return Err(Fault::Plan(PlanFault::NoTask));
        }
        self.search.start(Problem {
            test: &self.test,
            cost: &self.cost,
            tasks: &self.tasks,
        })?;
        self.state = State::Searching;
        Ok(())
    }

    // Examines `count` vertices, or all that are left.
    pub(crate) fn examine(&mut self, count: u32) -> Result<Progress, Fault>
        requires { self.old.state ≡ State.Searching }
        ensures { Served (means T.Admission T.ResponseTest.own C.Cost self.old) (Advance count) self.old self.new (told advanced result) }
    {
        check_steps(count)?;
        // put together here and in `begin_search`, since a method would borrow the whole plan while its search is borrowed
        let problem = Problem {
            test: &self.test,
            cost: &self.cost,
            tasks: &self.tasks,
        };
        let progress = self.search.advance(problem, u64::from(count));
        if progress.finished {
            self.state = State::Finished;
        }
        Ok(Progress {
            count: progress.count as u32,
            finished: progress.finished,
        })
    }

    // A finished search goes no further.
    pub(crate) fn rest(&self, count: u32) -> Result<Progress, Fault>
        requires { self.now.state ≡ State.Finished }
        ensures { Served (means T.Admission T.ResponseTest.own C.Cost self.now) (Advance count) self.now self.now (told advanced result) }
    {
        check_steps(count)?;
        Ok(Progress {
            count: 0,
            finished: true,
        })
    }

    // Gives up the search, or what it found.
    pub(crate) fn end_search(&mut self) -> Result<(), Fault>
        requires { is_open (model self.old).stage ≡ false }
        ensures { Served (means T.Admission T.ResponseTest.own C.Cost self.old) Stop self.old self.new (told (λ _. Done) result) }
    {
        self.state = State::Open;
        Ok(())
    }
}
