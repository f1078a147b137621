// The levels of an order, as they are reported.
ghost use Rattle.std.specs.Prelude.{◌≡◌, ◌≤◌, map, length, slice_index, slice_index_or};
ghost use Rattle.tasks.specs.Tasks.{plain};
ghost use Rattle.costs.specs.Folds.{no_task};
ghost use Rattle.search.specs.Ranks.{ranked};
ghost use Rattle.law.specs.Obey.{levels};
ghost use Rattle.text.specs.Levels.{numbers};
ghost use Rattle.plan.specs.Listing.{shown};

use arrayvec::ArrayVec;
use search::ranking::Ranking;
use tasks::task::Task;
use text::Level;

// Past the end this and `time_at` answer 0, as their definitions do: an Option would be turned back into that 0.

// The id of the task at a position; 0 past the end.
fn id_at(tasks: &[Task], position: usize) -> u8
    ensures { result ≡ (slice_index_or (map plain tasks.now) position no_task).id }
{
    tasks.get(position).map_or(0, |task| task.id)
}

// The time at a position; 0 past the end.
fn time_at(times: &[u32], position: usize) -> u32
    ensures { result ≡ slice_index times.now position }
{
    times.get(position).copied().unwrap_or(0)
}

// The levels of an order, highest first.
pub(crate) fn levels_of(tasks: &[Task], best: &Ranking) -> ArrayVec<Level, 16>
    ensures value { map numbers result.items ≡ map shown (levels (map plain tasks.now) (ranked best.now).order (ranked best.now).times) }
    ensures few { length result.items ≤ 16 }
{
    let mut levels = ArrayVec::new();
    for place in &best.order[0..best.level()] {
        let position = usize::from(*place);
        levels.push(Level {
            id: id_at(tasks, position),
            response: time_at(&best.times, position),
        });
    }
    levels
}
