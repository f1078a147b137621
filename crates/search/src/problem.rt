// What a search is made over: the held tasks, the test that answers for them, and the cost of their orders.
use tasks::list::TaskList;

// Clauses name its three parts, as the definitions take them. That the tasks are admitted is a premise of three promises, and no invariant: a
// search needs no admitted tasks.
#[derive_where(Clone, Copy)]
pub struct Problem<'a, T, C> {
    pub test: &'a T,
    pub cost: &'a C,
    pub tasks: &'a TaskList,
}
