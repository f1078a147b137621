// The joined cost of the held tasks, each with its response time.
ghost use Rattle.std.specs.Prelude.{◌≡◌, ◌+◌, ◌<◌, ◌≤◌, None, slice_index, slice_index_or};
ghost use Rattle.tasks.specs.Lists.{plains};
ghost use Rattle.costs.specs.Folds.{total, total_if_timed, LaterNoLess};

use crate::cost::Cost;
use tasks::list::TaskList;
use tasks::task::Task;

// A cost of fewer than 16 tasks, joined with that of one task more.
pub fn add_task<C: Cost>(cost: &C, sum: C::Value, task: &Task, time: u32) -> C::Value
    requires { (C.prices cost.now).covered sum < 16 }
    ensures value { result ≡ (C.prices cost.now).joined sum ((C.prices cost.now).single task.now.weight task.now.tier time) }
    ensures covers { (C.prices cost.now).covered result ≤ (C.prices cost.now).covered sum + 1 }
{
    cost.join(sum, cost.one(task.weight, task.tier, time))
}

// Sixteen times, as a ranking holds them, since a slice could end before the tasks. Cost and tasks are two parameters: a struct of both would be
// made for two calls.

// The cost of all tasks, each with the time at its position: the least of all costs with times that are nowhere earlier.
// It stands beside `total_if_timed` because it cannot fail: a caller that has every time would otherwise have to answer for a missing one.
pub fn total_cost<C: Cost>(cost: &C, tasks: &TaskList, times: &[u32; 16]) -> C::Value
    ensures value { result ≡ total (C.prices cost.now) (plains tasks.now) (λ i. slice_index times.now i) }
    ensures least { LaterNoLess (C.prices cost.now) (plains tasks.now) (λ i. slice_index times.now i) }
{
    let mut sum = cost.none();
    for (task, time) in tasks.as_slice().iter().zip(times) {
        sum = add_task(cost, sum, task, *time);
    }
    sum
}

// The cost of all tasks, or none where one of them has no time.
pub fn total_if_timed<C: Cost>(
    cost: &C,
    tasks: &TaskList,
    times: &[Option<u32>; 16],
) -> Option<C::Value>
    ensures { result ≡ total_if_timed (C.prices cost.now) (plains tasks.now) (λ i. slice_index_or times.now i None) }
{
    let mut sum = cost.none();
    for (task, time) in tasks.as_slice().iter().zip(times) {
        sum = add_task(cost, sum, task, (*time)?);
    }
    Some(sum)
}
