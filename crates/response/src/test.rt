// The interface of a response test.
ghost use Rattle.std.specs.Prelude.{◌≡◌, ℕ, ◌<◌, length};
ghost use Rattle.tasks.specs.Timing.{timed};
ghost use Rattle.response.specs.Tests.{Answers, Within, Monotone};

use tasks::admission::Admission;
use tasks::set::TaskSet;
use tasks::task::Task;

// A cost has a number and a code too: one trait over both would be one more to implement for each who writes a test, and lengthen each
// clause that names the number.
pub trait ResponseTest: Admission {
    ghost number: { ℕ };

    ghost answer: { Self → Answers };

    // The test's number in a packed table. A constant of the trait would need this method, which callers ask, beside it, and an
    // enum would close the set of tests.
    fn code(&self) -> u8
        ensures { result ≡ number };

    // The response time of the task at `position` with the tasks of `above` above it; none where it is late.
    fn respond(&self, tasks: &[Task], position: usize, above: TaskSet) -> Option<u32>
        requires { position < length tasks.now }
        ensures { result ≡ answer self.now (timed tasks.now) position above.word };

    ghost coded: { number < 4 };

    ghost within: { (x : Self) → Within (Self.Admission.admitted x) (answer x) };

    ghost monotone: { (x : Self) → Monotone (Self.Admission.admitted x) (answer x) };
}
