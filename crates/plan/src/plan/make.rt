// A new plan, and the vertex bound of the held tasks.
ghost use Rattle.std.specs.Prelude.{◌≡◌, [], length, IfOk};
ghost use Rattle.orders.specs.Search.{vertices};
ghost use Rattle.law.specs.Obey.{opened};
ghost use Rattle.plan.specs.Model.{model};

use super::Plan;
use crate::state::State;
use costs::cost::Cost;
use response::test::ResponseTest;
use search::search::Search;
use search::tree::vertex_bound;
use std::alloc::{AllocError, Global};
use tasks::list::TaskList;

impl<T: ResponseTest + Drop, C: Cost + Drop> Plan<T, C> {
    // A test and a cost are two parameters, since the plan itself is the struct of both.
    // An open plan with no task. All the memory that it will ever need is reserved here.
    pub fn new(heap: Global, test: T, cost: C) -> Result<Plan<T, C>, AllocError>
        ensures { IfOk result (λ p. (model p ≡ opened []) × (p.test ≡ test) × (p.cost ≡ cost)) }
    {
        let search = Search::new(heap)?;
        Ok(Plan {
            test,
            cost,
            tasks: TaskList::new(),
            state: State::Open,
            search,
        })
    }

    // How many vertices a search over the held tasks can examine.
    pub fn vertex_bound(&self) -> u64
        ensures { result ≡ vertices (length (model self.now).tasks) }
    {
        vertex_bound(&self.tasks)
    }
}
