// The best order of a finished plan, packed.
ghost use Rattle.std.specs.Prelude.{◌≡◌};
ghost use Rattle.law.specs.declared.command.Command.TheVariants.{Report};
ghost use Rattle.plan.specs.Answers.{told, reported_outcome};
ghost use Rattle.plan.specs.Calls.{Obeyed};
ghost use Rattle.plan.specs.Model.{means};

use super::Plan;
use crate::answers::Reported;
use crate::state::State;
use costs::cost::Cost;
use response::test::ResponseTest;
use tasks::fault::Fault;
use text::report::report;

impl<T: ResponseTest + Drop, C: Cost + Drop> Plan<T, C> {
    // Writes the ids and response times of the best order, and gives the count of bytes and the two numbers of its cost.
    pub(crate) fn write_report(&self, out: &mut [u8]) -> Result<Reported, Fault>
        requires { self.now.state ≡ State.Finished }
        ensures { Obeyed (means T.Admission T.ResponseTest.own C.Cost self.now) Report self.now self.now out.old out.new (told reported_outcome result) }
    {
        let bytes = report(&self.best_levels(), out)?;
        let (first, second) = self.best_numbers();
        Ok(Reported {
            bytes,
            first,
            second,
        })
    }
}
