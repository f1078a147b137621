// Tasks, sets and lists of tasks, and what a call is refused for.
#![tactic(auto)]

pub mod admission;
pub mod check;
pub mod fault;
pub mod list;
pub mod lists;
pub mod set;
pub mod task;
