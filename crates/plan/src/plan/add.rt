// Adding a task.
ghost use Rattle.std.specs.Prelude.{◌≡◌, false};
ghost use Rattle.law.specs.declared.command.Command.TheVariants.{Add};
ghost use Rattle.law.specs.declared.command.Outcome.TheVariants.{Done};
ghost use Rattle.law.specs.Obey.{is_searching};
ghost use Rattle.plan.specs.Answers.{told};
ghost use Rattle.plan.specs.Calls.{Served};
ghost use Rattle.plan.specs.Model.{model, means};

use super::Plan;
use crate::held::{find, insert_task};
use crate::state::State;
use costs::cost::Cost;
use response::test::ResponseTest;
use tasks::fault::{Fault, PlanFault, TaskFault};
use tasks::task::Candidate;

impl<T: ResponseTest + Drop, C: Cost + Drop> Plan<T, C> {
    // Takes one task more.
    pub(crate) fn add_task(&mut self, candidate: Candidate) -> Result<(), Fault>
        requires { is_searching (model self.old).stage ≡ false }
        ensures { Served (means T.Admission T.ResponseTest.own C.Cost self.old) (Add candidate) self.old self.new (told (λ _. Done) result) }
    {
        let task = candidate.check(0)?;
        if !self.test.admits(task.timing()) {
            return Err(Fault::Task(TaskFault::NotAdmitted(0)));
        }
        let held = self.tasks.as_slice();
        if find(held, task.id).is_some() {
            return Err(Fault::Plan(PlanFault::Order(0)));
        }
        if held.len() >= 16 {
            return Err(Fault::Plan(PlanFault::Full));
        }
        insert_task(&mut self.tasks, task);
        self.state = State::Open;
        Ok(())
    }
}
