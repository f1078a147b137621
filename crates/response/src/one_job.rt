// The one-job test: the response of a job that is released with every task above it and blocked once from below.
ghost use Rattle.std.specs.Prelude.{◌≡◌, ◌<◌};
ghost use Rattle.tasks.specs.Timing.{timed};
ghost use Rattle.response.specs.Tests.{one_job, one_job_admits, blocking};
ghost use Rattle.response.specs.Blocking.{one_job_within, one_job_monotone};
ghost use Rattle.std.proofs.Common.{rules};

use crate::load::settle;
use crate::test::ResponseTest;
use tasks::admission::Admission;
use tasks::set::TaskSet;
use tasks::task::{Task, Timing};

#[derive(Clone, Copy)]
pub struct OneJob;

// The longest section among the tasks below the one at `position`, or 0.
fn longest_below(tasks: &[Task], position: usize, above: TaskSet) -> u32
    ensures exact { result ≡ blocking (timed tasks.now) position above.word }
    ensures short { result < 4096 }
{
    // the test stands inside the fold: a filter before it takes a third more instructions, in what a search asks most
    tasks.iter().enumerate().fold(0, |longest, (other, task)| {
        if other == position || above.contains(other) {
            longest
        } else {
            longest.max(u32::from(task.section))
        }
    })
}

impl Admission for OneJob {
    ghost admitted = { λ _. one_job_admits };

    fn admits(&self, timing: Timing) -> bool {
        timing.deadline <= timing.period
    }
}

impl ResponseTest for OneJob {
    ghost number = { 0 };

    ghost answer = { λ _. one_job };

    ghost coded = { Prim.search rules };

    ghost within = { λ x. one_job_within };

    ghost monotone = { λ x. one_job_monotone };

    fn code(&self) -> u8 {
        0
    }

    fn respond(&self, tasks: &[Task], position: usize, above: TaskSet) -> Option<u32> {
        let task = tasks[position];
        let base = task.execution + longest_below(tasks, position, above);
        settle(tasks, above, base, base, task.deadline)
    }
}
