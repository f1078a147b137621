// Running code of the first order and of the search by branch and bound, and the order of least cost.
#![tactic(auto)]

pub mod best;
pub mod first;
mod pick;
pub mod problem;
pub mod progress;
pub mod ranking;
pub mod search;
pub mod tree;
mod vertex;
pub mod worked;
