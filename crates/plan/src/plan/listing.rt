// The best order of a finished plan, in text.
ghost use Rattle.std.specs.Prelude.{◌≡◌};
ghost use Rattle.tasks.specs.Buffers.{delivered};
ghost use Rattle.plan.specs.Listing.{listing as listing_text, listed};
ghost use Rattle.plan.specs.Model.{model, means};

use super::Plan;
use crate::state::State;
use costs::cost::Cost;
use response::test::ResponseTest;
use tasks::fault::{Fault, PlanFault};
use text::listing;

impl<T: ResponseTest + Drop, C: Cost + Drop> Plan<T, C> {
    // Writes a line for each level and the line of the cost.
    fn write_listing(&self, out: &mut [u8]) -> Result<usize, Fault>
        requires { self.now.state ≡ State.Finished }
        ensures { (result, out.new) ≡ delivered 512 (listing_text (means T.Admission T.ResponseTest.own C.Cost self.now) (model self.now)) out.old }
    {
        listing(&self.best_levels(), self.best_numbers(), out)
    }

    // Writes the listing of a finished plan into at least 512 bytes, and returns the count of bytes written.
    pub fn listing(&self, out: &mut [u8]) -> Result<usize, Fault>
        ensures { (result, out.new) ≡ listed (means T.Admission T.ResponseTest.own C.Cost self.now) (model self.now) out.old }
    {
        self.state.must_be_finished()?;
        self.write_listing(out)
    }
}
