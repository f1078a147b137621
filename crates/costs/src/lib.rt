// What an order costs: the interface, two kinds of cost, and the joined cost of tasks with their response times.
#![tactic(auto)]

pub mod cost;
pub mod fold;
pub mod sum;
pub mod tiers;
