// What a plan tells in any state.
ghost use Rattle.std.specs.Prelude.{◌≡◌, length};
ghost use Rattle.tasks.specs.Buffers.{delivered};
ghost use Rattle.plan.specs.Asking.{asked, table};
ghost use Rattle.plan.specs.Model.{model, means};

use super::Plan;
use crate::held::find;
use crate::ids::{are_held, positions_of};
use costs::cost::Cost;
use response::test::ResponseTest;
use tables::table::encode;
use tasks::fault::{Fault, PlanFault};
use tasks::set::TaskSet;

impl<T: ResponseTest + Drop, C: Cost + Drop> Plan<T, C> {
    // The response time of the task of an id, with the tasks of a set of ids above it; none where it is late. Id and set are the two parts of a
    // question of the interface.
    pub fn ask(&self, id: u8, above: u64) -> Result<Option<u32>, Fault>
        ensures { result ≡ asked (means T.Admission T.ResponseTest.own C.Cost self.now) (model self.now).tasks id above }
    {
        let held = self.tasks.as_slice();
        let ids = TaskSet { word: above };
        let position = find(held, id).ok_or(PlanFault::NotHeld)?;
        if ids.contains(usize::from(id)) {
            return Err(Fault::Plan(PlanFault::AboveItself));
        }
        if !are_held(held, ids) {
            return Err(Fault::Plan(PlanFault::NotHeld));
        }
        Ok(self.test.respond(held, position, positions_of(held, ids)))
    }

    // Packs the tasks into a buffer, and returns the count of bytes written.
    pub fn write(&self, out: &mut [u8]) -> Result<usize, Fault>
        ensures { (result, out.new) ≡ delivered (length (table (means T.Admission T.ResponseTest.own C.Cost self.now) (model self.now).tasks)) (table (means T.Admission T.ResponseTest.own C.Cost self.now) (model self.now).tasks) out.old }
    {
        encode(self.codes(), &self.tasks, out)
    }
}
