// Loading a table.
ghost use Rattle.std.specs.Prelude.{◌≡◌, false};
ghost use Rattle.law.specs.declared.command.Command.TheVariants.{Load};
ghost use Rattle.law.specs.declared.command.Outcome.TheVariants.{Done};
ghost use Rattle.law.specs.Obey.{is_searching};
ghost use Rattle.plan.specs.Answers.{told};
ghost use Rattle.plan.specs.Calls.{Served};
ghost use Rattle.plan.specs.Model.{model, means};

use super::Plan;
use crate::state::State;
use costs::cost::Cost;
use response::test::ResponseTest;
use tables::table::decode;
use tasks::fault::Fault;
use tasks::list::Codes;

impl<T: ResponseTest + Drop, C: Cost + Drop> Plan<T, C> {
    // The codes of the plan's test and cost.
    pub(crate) fn codes(&self) -> Codes
        ensures test { result.test ≡ T.ResponseTest.number }
        ensures cost { result.cost ≡ C.Cost.number }
    {
        Codes {
            test: self.test.code(),
            cost: self.cost.code(),
        }
    }

    // Replaces all tasks by those of a table, or none.
    pub(crate) fn replace_tasks(&mut self, file: &[u8]) -> Result<(), Fault>
        requires { is_searching (model self.old).stage ≡ false }
        ensures { Served (means T.Admission T.ResponseTest.own C.Cost self.old) (Load file.entry) self.old self.new (told (λ _. Done) result) }
    {
        self.tasks = decode(&self.test, self.codes(), file)?;
        self.state = State::Open;
        Ok(())
    }
}
