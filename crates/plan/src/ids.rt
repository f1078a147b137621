// Sets of ids among the held tasks.
ghost use Rattle.std.specs.Prelude.{◌≡◌, ◌≤◌, map, length};
ghost use Rattle.tasks.specs.Tasks.{plain};
ghost use Rattle.plan.specs.Ids.{held_if_in, all_held, positions};

use crate::held::find;
use tasks::set::TaskSet;
use tasks::task::Task;

// Whether an id is held, if it is in a set.
fn held_if_in(tasks: &[Task], ids: TaskSet, id: u8) -> bool
    ensures { result ≡ held_if_in ids.word (map plain tasks.now) id }
{
    !ids.contains(usize::from(id)) || find(tasks, id).is_some()
}

// Whether every id of a set is held.
pub(crate) fn are_held(tasks: &[Task], ids: TaskSet) -> bool
    ensures { result ≡ all_held ids.word (map plain tasks.now) }
{
    (0..64).all(|id| held_if_in(tasks, ids, id))
}

// The positions of the tasks whose ids are in a set. The word is added up, since the definition adds the bits of its places.
pub(crate) fn positions_of(tasks: &[Task], ids: TaskSet) -> TaskSet
    requires { length tasks.now ≤ 16 }
    ensures { result.word ≡ positions ids.word (map plain tasks.now) }
{
    let mut word: u64 = 0;
    for (i, task) in tasks.iter().enumerate() {
        if ids.contains(usize::from(task.id)) {
            word += 1 << i;
        }
    }
    TaskSet { word }
}
