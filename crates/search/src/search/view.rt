// What a search has found.
ghost use Rattle.std.specs.Prelude.{◌≡◌, length};
ghost use Rattle.tasks.specs.Lists.{plains};
ghost use Rattle.orders.specs.Search.{is_none};
ghost use Rattle.search.specs.Ranks.{ranked};
ghost use Rattle.search.specs.Model.{state, priced, worth};

use super::Search;
use crate::ranking::Ranking;
use costs::cost::Cost;
use costs::fold::total_cost;
use tasks::list::TaskList;

impl Search {
    // The best order so far.
    pub fn best(&self) -> Ranking
        ensures { ranked result ≡ (state self.now).best }
    {
        self.best
    }

    // Whether no vertex is left to examine.
    pub(crate) fn is_finished(&self) -> bool
        ensures { result ≡ is_none (state self.now).active }
    {
        self.active.is_empty()
    }

    // The cost of the best order so far.
    pub fn best_cost<C: Cost>(&self, cost: &C, tasks: &TaskList) -> C::Value
        requires { length (plains tasks.now) ≡ self.now.size }
        ensures { result ≡ worth (priced (C.prices cost.now) (plains tasks.now)) (state self.now).best }
    {
        total_cost(cost, tasks, &self.best.times)
    }
}
