// The least that the orders below a ranking can cost.
ghost use Rattle.std.specs.Prelude.{◌≡◌, true, length};
ghost use Rattle.tasks.specs.Lists.{plains};
ghost use Rattle.search.specs.Ranks.{ranked, ranks, all_below};
ghost use Rattle.search.specs.Model.{bound_over};

use super::Ranking;
use crate::problem::Problem;
use costs::cost::Cost;
use costs::fold::add_task;
use response::test::ResponseTest;

// Its positions are asked to be below the number of tasks, here and where a vertex is entered, since a ranking does not know its tasks.
impl Ranking {
    // The cost of the placed tasks and of each other task below exactly these, or none where one is late.
    pub(crate) fn bound<T: ResponseTest, C: Cost>(
        &self,
        problem: Problem<'_, T, C>,
    ) -> Option<C::Value>
        requires { all_below (length (plains problem.tasks.now)) (ranks self.now) ≡ true }
        ensures { result ≡ bound_over (T.answer problem.entry.test.now) (C.prices problem.entry.cost.now) (plains problem.entry.tasks.now) (ranked self.now) }
    {
        let Problem { test, cost, tasks } = problem;
        let held = tasks.as_slice();
        let mut sum = cost.none();
        // by position, which the set and the test are asked with, so a zip with the times is no plainer
        for (position, task) in held.iter().enumerate() {
            let time = if self.placed.contains(position) {
                self.times[position]
            } else {
                test.respond(held, position, self.placed)?
            };
            sum = add_task(cost, sum, task, time);
        }
        Some(sum)
    }
}
