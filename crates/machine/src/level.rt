// The response time of a level of an order, and what it promises.
ghost use Rattle.std.specs.Prelude.{◌≡◌, ℕ, ◌<◌, ◌≤◌, length, take as highest, None, nat_lt, slice_index};
ghost use Rattle.tasks.specs.Sets.{holds};
ghost use Rattle.tasks.specs.Timing.{timed, Held};
ghost use Rattle.orders.specs.Orders.{Order, count, word};
ghost use Rattle.machine.specs.Claims.{Named, KeepsLevel};

use response::test::ResponseTest;
use tasks::set::TaskSet;
use tasks::task::Task;

// The set of these tasks.
fn set_of(positions: &[u8]) -> TaskSet
    ensures { ((i : ℕ) → 0 < count i positions.now → i < 64) → (j : ℕ) → holds result.word j ≡ nat_lt 0 (count j positions.now) }
{
    positions.iter().fold(TaskSet::EMPTY, |set, position| {
        set.with(usize::from(*position))
    })
}

/// The test's answer for a level of an order, with exactly the tasks of the higher levels above; none where the task is
/// late or the order has no such level. On the tick machine every job of the level ends, and takes at most that time.
pub fn level_time<T: ResponseTest>(
    test: &T,
    tasks: &[Task],
    order: &[u8],
    level: usize,
) -> Option<u32>
    ensures answered { level < length order.now → length tasks.now ≤ 64 → Order (length tasks.now) order.now → result ≡ T.ResponseTest.answer test.now (timed tasks.now) (slice_index order.now level) (word (highest level order.now)) }
    ensures past { length order.now ≤ level → result ≡ None }
    ensures kept { length tasks.now ≤ 64 → Order (length tasks.now) order.now → Named (T.Admission.admitted test.now) (T.ResponseTest.answer test.now) → Held (T.Admission.admitted test.now) (timed tasks.now) → KeepsLevel (timed tasks.now) order.now level result }
{
    let position = usize::from(*order.get(level)?);
    if position >= tasks.len() {
        return None;
    }
    test.respond(tasks, position, set_of(&order[..level]))
}
