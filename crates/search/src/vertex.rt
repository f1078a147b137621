// A vertex of the search: a task that is to be placed below its ancestors.
ghost use Rattle.std.specs.Prelude.{◌≡◌, ◌<◌, false};
ghost use Rattle.tasks.specs.Sets.{holds};

use crate::ranking::Ranking;

#[derive(Clone, Copy)]
pub struct Vertex {
    pub above: Ranking,
    pub task: u8,
    ghost held: { task < 16 },
    ghost free: { holds above.placed.word task ≡ false },
}
