// What is known of the best order so far, once a search has begun.
ghost use Rattle.std.specs.Prelude.{◌≡◌, ◌≤◌, false, map, length, Some};
ghost use Rattle.law.specs.Obey.{is_open, best_levels};
ghost use Rattle.text.specs.Levels.{numbers};
ghost use Rattle.plan.specs.Listing.{shown};
ghost use Rattle.plan.specs.Progress.{best_cost};
ghost use Rattle.plan.specs.Model.{model, means};

use super::Plan;
use crate::levels::levels_of;
use crate::state::State;
use arrayvec::ArrayVec;
use costs::cost::Cost;
use response::test::ResponseTest;
use text::Level;

impl<T: ResponseTest + Drop, C: Cost + Drop> Plan<T, C> {
    // The levels of the best order, highest first.
    pub(crate) fn best_levels(&self) -> ArrayVec<Level, 16>
        requires { is_open (model self.now).stage ≡ false }
        ensures value { map numbers result.items ≡ map shown (best_levels (model self.now)) }
        ensures few { length result.items ≤ 16 }
    {
        levels_of(self.tasks.as_slice(), &self.search.best())
    }

    // The two numbers of its cost.
    pub(crate) fn best_numbers(&self) -> (u64, u64)
        requires { is_open (model self.now).stage ≡ false }
        ensures { Some result ≡ best_cost (means T.Admission T.ResponseTest.own C.Cost self.now) (model self.now).tasks (model self.now).stage }
    {
        self.cost
            .shown(self.search.best_cost(&self.cost, &self.tasks))
    }

    // The two numbers of the cost of the best order so far; none while the plan is open.
    pub fn best_cost(&self) -> Option<(u64, u64)>
        ensures { result ≡ best_cost (means T.Admission T.ResponseTest.own C.Cost self.now) (model self.now).tasks (model self.now).stage }
    {
        match self.state {
            State::Open => None,
            State::Searching | State::Finished => Some(self.best_numbers()),
        }
    }
}
