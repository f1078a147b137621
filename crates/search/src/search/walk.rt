// Examining one vertex after another.
ghost use Rattle.std.specs.Prelude.{◌≡◌, length};
ghost use Rattle.tasks.specs.Lists.{plains};
ghost use Rattle.search.specs.Ranks.{ranked};
ghost use Rattle.search.specs.Model.{priced, worth};

use super::Search;
use crate::problem::Problem;
use crate::progress::Progress;
use crate::ranking::Ranking;
use costs::cost::Cost;
use costs::fold::total_cost;
use response::test::ResponseTest;

// A search under way over a problem, with the cost of its best order.
#[derive(Drop)]
pub(crate) struct Walk<'a, T, C: Cost> {
    problem: Problem<'a, T, C>,
    pub(crate) search: &'a mut Search,
    price: C::Value,
    ghost over_held: { length (plains problem.tasks.now) ≡ search.now.size },
    ghost priced: { price ≡ worth (priced (C.prices problem.cost.now) (plains problem.tasks.now)) (ranked search.now.best) },
}

// Each method says that search and problem stay the same: a fact of before and after, which no invariant of the walk can hold.
impl<'a, T: ResponseTest, C: Cost> Walk<'a, T, C> {
    ghost use Rattle.std.specs.Prelude.{◌≤◌, true, false, [], vec_len, not};
    ghost use Rattle.orders.specs.Search.{is_none};
    ghost use Rattle.search.specs.Ranks.{ranks, room, all_below};
    ghost use Rattle.search.specs.Model.{state, placed_over, examine_over, steps_over, stepped_over};

    // Goes on with a search.
    pub(crate) fn new(problem: Problem<'a, T, C>, search: &'a mut Search) -> Walk<'a, T, C>
        requires { length (plains problem.tasks.now) ≡ search.old.size }
        ensures same_search { result.search.ghost_name ≡ search.entry.ghost_name }
        ensures same_problem { result.problem ≡ problem.entry }
        ensures search { result.search.now ≡ search.old }
    {
        let price = search.best_cost(problem.cost, problem.tasks);
        Walk {
            problem,
            search,
            price,
        }
    }

    // With a vertex's task placed: a new best order, or the vertices below it, or neither.
    fn settle(&mut self, here: Ranking)
        requires room { vec_len self.old.search.now.active ≤ room (length (ranks here)) }
        requires among { all_below self.old.search.now.size (ranks here) ≡ true }
        ensures same_search { self.new.search.ghost_name ≡ self.old.search.ghost_name }
        ensures same_problem { self.new.problem ≡ self.old.problem }
        ensures state { state self.new.search.now ≡ placed_over (T.answer self.old.problem.test.now) (C.prices self.old.problem.cost.now) (plains self.old.problem.tasks.now) (state self.old.search.now) (ranked here) }
    {
        let Problem { cost, tasks, .. } = self.problem;
        let held = tasks.as_slice();
        if here.level() == held.len() {
            let total = total_cost(cost, tasks, &here.times);
            if !cost.no_more(self.price, total) {
                self.price = total;
                self.search.best = here;
            }
        } else if let Some(bound) = here.bound(self.problem) {
            if !cost.no_more(self.price, bound) {
                self.search.enter(here);
            }
        }
    }

    // Examines the next vertex, and says whether there was one.
    fn examine(&mut self) -> bool
        ensures same_search { self.new.search.ghost_name ≡ self.old.search.ghost_name }
        ensures same_problem { self.new.problem ≡ self.old.problem }
        ensures some { result ≡ not (is_none (state self.old.search.now).active) }
        ensures state { state self.new.search.now ≡ examine_over (T.answer self.old.problem.test.now) (C.prices self.old.problem.cost.now) (plains self.old.problem.tasks.now) (state self.old.search.now) }
    {
        let Some(vertex) = self.search.next_vertex() else {
            return false;
        };
        let Problem { test, tasks, .. } = self.problem;
        let held = tasks.as_slice();
        let position = usize::from(vertex.task);
        if let Some(time) = test.respond(held, position, vertex.above.placed) {
            self.settle(vertex.above.with(vertex.task, time));
        }
        true
    }

    // Examines `count` vertices, or all that are left.
    pub(crate) fn advance(&mut self, count: u64) -> Progress<u64>
        ensures same_search { self.new.search.ghost_name ≡ self.old.search.ghost_name }
        ensures same_problem { self.new.problem ≡ self.old.problem }
        ensures state { state self.new.search.now ≡ steps_over (T.answer self.old.problem.test.now) (C.prices self.old.problem.cost.now) (plains self.old.problem.tasks.now) count (state self.old.search.now) }
        ensures examined { result.count ≡ stepped_over (T.answer self.old.problem.test.now) (C.prices self.old.problem.cost.now) (plains self.old.problem.tasks.now) count (state self.old.search.now) }
        ensures finished { result.finished ≡ is_none (state self.new.search.now).active }
    {
        for examined in 0..count {
            if !self.examine() {
                return Progress {
                    count: examined,
                    finished: true,
                };
            }
        }
        Progress {
            count,
            finished: self.search.is_finished(),
        }
    }
}
