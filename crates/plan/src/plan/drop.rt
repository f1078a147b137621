// Dropping a task.
ghost use Rattle.std.specs.Prelude.{◌≡◌, false};
ghost use Rattle.law.specs.declared.command.Command.TheVariants.{Drop};
ghost use Rattle.law.specs.declared.command.Outcome.TheVariants.{Done};
ghost use Rattle.law.specs.Obey.{is_searching};
ghost use Rattle.plan.specs.Answers.{told};
ghost use Rattle.plan.specs.Calls.{Served};
ghost use Rattle.plan.specs.Model.{model, means};

use super::Plan;
use crate::held::{find, remove_task};
use crate::state::State;
use costs::cost::Cost;
use response::test::ResponseTest;
use tasks::fault::{Fault, PlanFault};

impl<T: ResponseTest + Drop, C: Cost + Drop> Plan<T, C> {
    // Lets go of the task of that id.
    pub(crate) fn drop_task(&mut self, id: u8) -> Result<(), Fault>
        requires { is_searching (model self.old).stage ≡ false }
        ensures { Served (means T.Admission T.ResponseTest.own C.Cost self.old) (Drop id) self.old self.new (told (λ _. Done) result) }
    {
        let at = find(self.tasks.as_slice(), id).ok_or(PlanFault::NotHeld)?;
        remove_task(&mut self.tasks, at);
        self.state = State::Open;
        Ok(())
    }
}
