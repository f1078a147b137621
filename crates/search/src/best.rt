// The order of least cost.
ghost use Rattle.std.specs.Prelude.{length, IfOk, MatchOption};
ghost use Rattle.tasks.specs.Lists.{plains};
ghost use Rattle.tasks.specs.Timing.{timings};
ghost use Rattle.orders.specs.Theorems.{HasNoOrder};
ghost use Rattle.search.specs.Ranks.{ranked};
ghost use Rattle.search.specs.Model.{Admitted, BestOver};

use crate::problem::Problem;
use crate::ranking::Ranking;
use crate::search::Search;
use crate::tree::vertex_bound;
use costs::cost::Cost;
use response::test::ResponseTest;
use std::alloc::{AllocError, Global};

impl<T: ResponseTest, C: Cost> Problem<'_, T, C> {
    // An order that passes, with its times, such that no order that passes costs less; or none where no order passes.
    pub fn best_order(self, heap: Global) -> Result<Option<Ranking>, AllocError>
        ensures { Admitted (T.Admission.admitted self.entry.test.now) (plains self.entry.tasks.now) → IfOk result (λ o. MatchOption o (HasNoOrder (length (plains self.entry.tasks.now)) (T.answer self.entry.test.now (timings (plains self.entry.tasks.now)))) (λ best. BestOver (T.answer self.entry.test.now) (C.prices self.entry.cost.now) (plains self.entry.tasks.now) (ranked best))) }
    {
        let mut search = Search::new(heap)?;
        if search.start(self).is_err() {
            return Ok(None);
        }
        let _ = search.advance(self, vertex_bound(self.tasks));
        Ok(Some(search.best()))
    }
}
