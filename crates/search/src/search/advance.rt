// Examining a number of vertices.
ghost use Rattle.std.specs.Prelude.{◌≡◌, ℕ, ◌+◌, ◌≤◌, true, length};
ghost use Rattle.tasks.specs.Lists.{plains};
ghost use Rattle.orders.specs.Search.{is_none, vertices};
ghost use Rattle.search.specs.Model.{state, Admitted, steps_over, stepped_over, Reached, BestOver};

use super::Search;
use super::walk::Walk;
use crate::problem::Problem;
use crate::progress::Progress;
use costs::cost::Cost;
use response::test::ResponseTest;

impl Search {
    // Examines `count` vertices, or all that are left.
    pub fn advance<T: ResponseTest, C: Cost>(
        &mut self,
        problem: Problem<'_, T, C>,
        count: u64,
    ) -> Progress<u64>
        requires { length (plains problem.tasks.now) ≡ self.old.size }
        ensures size { self.new.size ≡ self.old.size }
        ensures state { state self.new ≡ steps_over (T.answer problem.entry.test.now) (C.prices problem.entry.cost.now) (plains problem.entry.tasks.now) count (state self.old) }
        ensures examined { result.count ≡ stepped_over (T.answer problem.entry.test.now) (C.prices problem.entry.cost.now) (plains problem.entry.tasks.now) count (state self.old) }
        ensures finished { result.finished ≡ is_none (state self.new).active }
        ensures reached { (k : ℕ) → Reached (T.answer problem.entry.test.now) (C.prices problem.entry.cost.now) (plains problem.entry.tasks.now) k (state self.old) → Reached (T.answer problem.entry.test.now) (C.prices problem.entry.cost.now) (plains problem.entry.tasks.now) (k + count) (state self.new) }
        ensures ends { (k : ℕ) → Reached (T.answer problem.entry.test.now) (C.prices problem.entry.cost.now) (plains problem.entry.tasks.now) k (state self.new) → vertices (length (plains problem.entry.tasks.now)) ≤ k → result.finished ≡ true }
        ensures best { (k : ℕ) → Reached (T.answer problem.entry.test.now) (C.prices problem.entry.cost.now) (plains problem.entry.tasks.now) k (state self.new) → Admitted (T.Admission.admitted problem.entry.test.now) (plains problem.entry.tasks.now) → result.finished ≡ true → BestOver (T.answer problem.entry.test.now) (C.prices problem.entry.cost.now) (plains problem.entry.tasks.now) (state self.new).best }
    {
        let mut walk = Walk::new(problem, self);
        let progress = walk.advance(count);
        // taken apart, the walk shows that this search is as it left it
        let Walk { search: _left, .. } = walk;
        progress
    }
}
