// Tasks at the levels from 1 down, with their response times.
ghost use Rattle.std.specs.Prelude.{◌≡◌, ℕ, ◌≤◌, take, slice_index};
ghost use Rattle.tasks.specs.Sets.{members};
ghost use Rattle.orders.specs.Orders.{count, word};

use tasks::set::TaskSet;

mod bound;
pub mod place;

// The set of the placed tasks, their order by level, and their response times by position. The arrays have room for every task,
// in place of a list as long as the set: a vertex is copied, and nothing is allocated once a plan is made.
#[derive(Clone, Copy)]
pub struct Ranking {
    pub placed: TaskSet,
    pub order: [u8; 16],
    pub times: [u32; 16],
    ghost once: { (i : ℕ) → count i (take (members placed.word) order) ≤ 1 },
    ghost among: { (i : ℕ) → 16 ≤ i → count i (take (members placed.word) order) ≡ 0 },
    ghost marked: { word (take (members placed.word) order) ≡ placed.word },
    ghost brief: { (i : ℕ) → slice_index times i ≤ 4294967295 },
}
