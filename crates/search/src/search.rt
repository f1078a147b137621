// Branch and bound: the best order so far, and the vertices that are left to examine.
ghost use Rattle.std.specs.Prelude.{◌≡◌, ℕ, ◌<◌, ◌≤◌, true, reverse, vec_capacity};
ghost use Rattle.orders.specs.Orders.{count};
ghost use Rattle.search.specs.Ranks.{ranks, sound};

use crate::ranking::Ranking;
use crate::vertex::Vertex;

pub mod advance;
pub mod stack;
pub mod view;
mod walk;

// A search over the tasks at the positions below `size`.
#[derive(Drop)]
pub struct Search {
    size: usize,
    best: Ranking,
    active: Vec<Vertex>,
    ghost few: { size ≤ 16 },
    ghost once: { (i : ℕ) → i < size → count i (ranks best) ≡ 1 },
    ghost no_other: { (i : ℕ) → size ≤ i → count i (ranks best) ≡ 0 },
    ghost reserved: { 136 ≤ vec_capacity active },
    ghost sound: { sound size (reverse active.items) ≡ true },
}
