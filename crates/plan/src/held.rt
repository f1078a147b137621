// The held tasks: looking an id up, and a task more or less.
ghost use Rattle.std.specs.Prelude.{◌≡◌, ◌+◌, ◌<◌, ◌≤◌, ◌++◌, map, length};
ghost use Rattle.std.specs.List.{remove};
ghost use Rattle.tasks.specs.Lists.{items, plains};
ghost use Rattle.tasks.specs.Tasks.{plain};
ghost use Rattle.law.specs.Held.{inserted};
ghost use Rattle.plan.specs.Ids.{rank, Found};

use tasks::list::TaskList;
use tasks::task::Task;

// Functions and no methods, since the type of the list is of another crate.

// The position of the task of that id.
pub(crate) fn find(tasks: &[Task], id: u8) -> Option<usize>
    ensures { Found id (map plain tasks.now) result }
{
    tasks.iter().position(|task| task.id == id)
}

// How many tasks stand before a new one of that id.
fn rank(tasks: &[Task], id: u8) -> usize
    ensures value { result ≡ rank id (map plain tasks.now) }
    ensures bound { result ≤ length tasks.now }
{
    tasks
        .iter()
        .position(|task| id < task.id)
        .unwrap_or(tasks.len())
}

// Some tasks more at the end, one by one: the list is an array, which has no way to take several.
fn extend(list: &mut TaskList, tasks: &[Task])
    requires { list.old.len + length tasks.now ≤ 16 }
    ensures items { items list.new ≡ items list.old ++ tasks.now }
    ensures len { list.new.len ≡ list.old.len + length tasks.now }
{
    for task in tasks {
        let _ = list.push(*task);
    }
}

// One task more, before the first of a larger id.
pub(crate) fn insert_task(list: &mut TaskList, task: Task)
    requires { length (items list.old) < 16 }
    ensures { plains list.new ≡ inserted (plain task) (plains list.old) }
{
    let tasks = list.as_slice();
    let at = rank(tasks, task.id);
    let mut with = TaskList::new();
    extend(&mut with, &tasks[0..at]);
    let _ = with.push(task);
    extend(&mut with, &tasks[at..tasks.len()]);
    *list = with;
}

// The task at a position less.
pub(crate) fn remove_task(list: &mut TaskList, at: usize)
    requires { at < length (items list.old) }
    ensures { plains list.new ≡ remove (plains list.old) at }
{
    let tasks = list.as_slice();
    let mut without = TaskList::new();
    extend(&mut without, &tasks[0..at]);
    extend(&mut without, &tasks[at + 1..tasks.len()]);
    *list = without;
}
