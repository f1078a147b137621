// A plan: one test and one cost for life, the held tasks, and how far its search is.
ghost use Rattle.std.specs.Prelude.{◌≡◌, true, length};
ghost use Rattle.tasks.specs.Lists.{plains};
ghost use Rattle.plan.specs.States.{matched as over_the_held};

use crate::state::State;
use search::search::Search;
use tasks::list::TaskList;

mod add;
mod apply;
mod ask;
mod best;
mod calls;
mod drop;
mod listing;
mod load;
mod make;
mod report;
mod seek;

// The tasks ascend by id. Nothing here depends on what the test or the cost answers. The search stands beside the state of an open plan too,
// since its memory is reserved once. Clauses say `means` with the test, the cost and the plan each time: the definition takes what
// the test and the cost promise as arguments, and a model of the plan could not name them without its bounds. `Drop` is a bound of each impl,
// since as a supertrait it would be asked of all who write a test or a cost.
#[derive(Drop)]
pub struct Plan<T, C> {
    test: T,
    cost: C,
    tasks: TaskList,
    state: State,
    search: Search,
    ghost matched: { over_the_held state (length (plains tasks)) search.size ≡ true },
}
