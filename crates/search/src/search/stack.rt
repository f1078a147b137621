// The stack of vertices, and how a search begins.
ghost use Rattle.std.specs.Prelude.{◌≡◌, ◌<◌, ◌≤◌, true, [], ◌++◌, length, map, IfOk, OnOk, IfSome, IfNone, vec_len};
ghost use Rattle.std.specs.Option.{option_to_list};
ghost use Rattle.tasks.specs.Lists.{plains};
ghost use Rattle.orders.specs.Orders.{Order};
ghost use Rattle.orders.specs.Search.{nothing_placed, begun, entering};
ghost use Rattle.search.specs.Ranks.{ranks, ranked, waiting, room, all_below, Below};
ghost use Rattle.search.specs.Model.{state, first_over, Started};

use super::Search;
use crate::problem::Problem;
use crate::ranking::Ranking;
use crate::vertex::Vertex;
use costs::cost::Cost;
use response::test::ResponseTest;
use std::alloc::{AllocError, Global};
use tasks::fault::PlanFault;

// Each step says that the size stays: a fact of before and after, which no invariant can hold.
impl Search {
    // A search that has nothing to examine, with room for every search.
    pub fn new(heap: Global) -> Result<Search, AllocError>
        ensures { IfOk result (λ s. (s.size ≡ 0) × (state s ≡ record { best = nothing_placed; active = [] })) }
    {
        let active = Vec::with_capacity(heap, 136)?;
        Ok(Search {
            size: 0,
            best: Ranking::none(),
            active,
        })
    }

    // Begins with the first order as the best, or leaves the search as it was where no order passes.
    pub fn start<T: ResponseTest, C: Cost>(
        &mut self,
        problem: Problem<'_, T, C>,
    ) -> Result<(), PlanFault>
        ensures started { Started (first_over (T.answer problem.entry.test.now) (C.prices problem.entry.cost.now) (plains problem.entry.tasks.now)) (length (plains problem.entry.tasks.now)) result self.old self.new }
        ensures size { OnOk result (self.new.size ≡ length (plains problem.entry.tasks.now)) }
    {
        let Some(first) = problem.first_order() else {
            return Err(PlanFault::NoOrder);
        };
        let held = problem.tasks.as_slice();
        self.begin(held.len(), first);
        Ok(())
    }

    // Begins with every task at level 1, the first to be examined first.
    fn begin(&mut self, size: usize, first: Ranking)
        requires few { size ≤ 16 }
        requires order { Order size (ranks first) }
        ensures size { self.new.size ≡ size }
        ensures state { state self.new ≡ begun size (ranked first) }
    {
        self.active.clear();
        self.size = size;
        self.best = first;
        self.enter(Ranking::none());
    }

    // Takes the next vertex to examine off the stack.
    pub(crate) fn next_vertex(&mut self) -> Option<Vertex>
        ensures size { self.new.size ≡ self.old.size }
        ensures best { self.new.best ≡ self.old.best }
        ensures active { (state self.old).active ≡ map waiting (option_to_list result) ++ (state self.new).active }
        ensures empty { IfNone result ((state self.new).active ≡ []) }
        ensures known { IfSome result (Below self.old.size (vec_len self.new.active)) }
    {
        self.active.pop()
    }

    // Puts every task that is not placed at the next level, the first to be examined first.
    pub(crate) fn enter(&mut self, above: Ranking)
        requires room { vec_len self.old.active ≤ room (length (ranks above)) }
        requires among { all_below self.old.size (ranks above) ≡ true }
        ensures size { self.new.size ≡ self.old.size }
        ensures best { self.new.best ≡ self.old.best }
        ensures active { (state self.new).active ≡ entering self.old.size (ranked above) ++ (state self.old).active }
    {
        // an `if` for each position, since a filter of the range takes a closure and more lines
        for position in (0..self.size).rev() {
            if !above.placed.contains(position) {
                let vertex = Vertex {
                    above,
                    task: position as u8,
                };
                self.active.push_reserved(vertex);
            }
        }
    }
}
