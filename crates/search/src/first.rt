// The first order: from the lowest level upward, the cheapest task that passes there.
ghost use Rattle.std.specs.Prelude.{◌≡◌, ℕ, ◌<◌, ◌⊎◌, List, length, IfSome, Some};
ghost use Rattle.std.specs.Option.{option_map};
ghost use Rattle.tasks.specs.Lists.{plains};
ghost use Rattle.orders.specs.Orders.{word, unplaced as lacking, Order};
ghost use Rattle.orders.specs.First.{cheaper as less};
ghost use Rattle.costs.specs.Folds.{charge};
ghost use Rattle.search.specs.Ranks.{ranked, ranks};
ghost use Rattle.search.specs.Model.{priced, Admitted, cheapest_over, first_over, FirstExact, FirstGreedy};
ghost use Rattle.search.specs.Picks.{chosen, Among};

use crate::pick::Pick;
use crate::problem::Problem;
use crate::ranking::Ranking;
use costs::cost::Cost;
use response::test::ResponseTest;
use tasks::set::TaskSet;

impl<T: ResponseTest, C: Cost> Problem<'_, T, C> {
    // The cost of a task with its response time.
    fn price(self, pick: Pick) -> C::Value
        requires { pick.position < length (plains self.tasks.now) }
        ensures { result ≡ charge (C.prices self.entry.cost.now) (plains self.entry.tasks.now) pick.position pick.time }
    {
        let held = self.tasks.as_slice();
        let task = held[pick.position];
        self.cost.one(task.weight, task.tier, pick.time)
    }

    // Of a pick and another the one of less cost, on a tie the first.
    fn cheaper(self, pick: Pick, other: Option<Pick>) -> Pick
        requires pick { pick.position < length (plains self.tasks.now) }
        requires other { IfSome other (λ d. d.position < length (plains self.tasks.now)) }
        ensures value { Some (chosen result) ≡ less (priced (C.prices self.entry.cost.now) (plains self.entry.tasks.now)) pick.position (Some pick.time) (option_map chosen other) }
        ensures either { (result ≡ pick) ⊎ (Some result ≡ other) }
    {
        match other {
            Some(old) if !self.cost.no_more(self.price(pick), self.price(old)) => old,
            _ => pick,
        }
    }

    // Among the unplaced tasks that are answered with all other unplaced ones above, the one of least cost, on a tie the first.
    fn cheapest(self, unplaced: TaskSet) -> Option<Pick>
        ensures among { IfSome result (Among (length (plains self.entry.tasks.now)) unplaced.word) }
        ensures value { (lower : List ℕ) → word (lacking (length (plains self.entry.tasks.now)) lower) ≡ unplaced.word → option_map chosen result ≡ cheapest_over (T.answer self.entry.test.now) (C.prices self.entry.cost.now) (plains self.entry.tasks.now) lower }
    {
        let held = self.tasks.as_slice();
        let mut best = None;
        // an `if` for each position, since a filter of the range takes a closure and more lines
        for position in (0..held.len()).rev() {
            if unplaced.contains(position) {
                let above = unplaced.without(position);
                if let Some(time) = self.test.respond(held, position, above) {
                    best = Some(self.cheaper(Pick { position, time }, best));
                }
            }
        }
        best
    }

    // The first order with its response times, or none where no order passes.
    pub fn first_order(self) -> Option<Ranking>
        ensures value { option_map ranked result ≡ first_over (T.answer self.entry.test.now) (C.prices self.entry.cost.now) (plains self.entry.tasks.now) }
        ensures order { IfSome result (λ a. Order (length (plains self.entry.tasks.now)) (ranks a)) }
        ensures exact { Admitted (T.Admission.admitted self.entry.test.now) (plains self.entry.tasks.now) → FirstExact (T.answer self.entry.test.now) (C.prices self.entry.cost.now) (plains self.entry.tasks.now) }
        ensures greedy { FirstGreedy (T.answer self.entry.test.now) (C.prices self.entry.cost.now) (plains self.entry.tasks.now) }
    {
        let held = self.tasks.as_slice();
        let placed = TaskSet::first(held.len());
        let mut unplaced = placed;
        // two arrays and no ranking that grows: this fills levels from the lowest up, and `with` adds the next level below
        let mut order = [0; 16];
        let mut times = [0; 16];
        // by level, since nothing is known of what a reversed `iter_mut` of the order wrote
        for level in (0..held.len()).rev() {
            let pick = self.cheapest(unplaced)?;
            order[level] = pick.position as u8;
            times[pick.position] = pick.time;
            unplaced = unplaced.without(pick.position);
        }
        Some(Ranking {
            placed,
            order,
            times,
        })
    }
}
