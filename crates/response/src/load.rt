// The load of a window, and the first window that its own load fills.
ghost use Rattle.std.specs.Prelude.{◌≡◌, ◌+◌, ◌≤◌};
ghost use Rattle.tasks.specs.Numbers.{ceiling, up_to};
ghost use Rattle.tasks.specs.Timing.{timed};
ghost use Rattle.response.specs.Tests.{demand, settled, Under};

use tasks::set::TaskSet;
use tasks::task::Task;

// How many periods begin in a window of w ticks.
fn periods_begun(w: u32, period: u32) -> u32
    requires { 1 ≤ period }
    ensures { result ≡ ceiling w period }
{
    w.div_ceil(period)
}

// Tasks and set are two parameters, as of `respond`: a struct of both would be made for each answer, and its clauses would take it apart.

// The base and the demand of `above` in a window of w ticks, or none past the limit.
// A loop is plainer than a `try_fold`, which would test the limit twice too, and inside two closures.
fn load_within(tasks: &[Task], above: TaskSet, base: u32, w: u32, limit: u32) -> Option<u32>
    requires w_bound { w ≤ 0x0800_0000 }
    requires limit_bound { limit ≤ 0x0800_0000 }
    ensures { result ≡ up_to limit (base + demand (timed tasks.now) above.word w) }
{
    let mut load = base;
    for (position, task) in tasks.iter().enumerate() {
        if load > limit {
            return None;
        }
        if above.contains(position) {
            load += periods_begun(w, task.period) * task.execution;
        }
    }
    (load <= limit).then_some(load)
}

// The least window from 1 to the limit that its own load fills, sought from `start` upwards.
pub(crate) fn settle(
    tasks: &[Task],
    above: TaskSet,
    base: u32,
    start: u32,
    limit: u32,
) -> Option<u32>
    requires start_bound { start ≤ 0x0800_0000 }
    requires limit_bound { limit ≤ 0x0800_0000 }
    requires under { Under (timed tasks.now) above.word base start }
    ensures { result ≡ settled (timed tasks.now) above.word base limit }
{
    let mut w = start;
    loop {
        let next = load_within(tasks, above, base, w, limit)?;
        if next == w {
            return Some(w);
        }
        w = next;
    }
}
