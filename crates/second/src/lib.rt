// A second planner, made independently of the first: its own reading of tables, response times by scanning, a walk without a stack, all
// permutations, and a tick machine; and the random tables that both planners are tried on.
#![tactic(auto)]

pub mod draw;
pub mod every_order;
pub mod random;
pub mod reply;
pub mod shadow;
pub mod table;
pub mod ticks;
pub mod times;
pub mod walk;
