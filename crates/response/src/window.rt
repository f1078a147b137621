// The window test: the response of every job of the longest busy window, for tasks without sections.
ghost use Rattle.response.specs.Tests.{window as window_answer, window_admits};
ghost use Rattle.response.specs.Jobs.{window_within, window_monotone};
ghost use Rattle.std.proofs.Common.{rules};

use crate::load::settle;
use crate::test::ResponseTest;
use tasks::admission::Admission;
use tasks::set::TaskSet;
use tasks::task::{Task, Timing};

#[derive(Clone, Copy)]
pub struct Window;

impl Admission for Window {
    ghost admitted = { λ _. window_admits };

    fn admits(&self, timing: Timing) -> bool {
        timing.section == 0
    }
}

impl ResponseTest for Window {
    ghost number = { 1 };

    ghost answer = { λ _. window_answer };

    ghost coded = { Prim.search rules };

    ghost within = { λ x. window_within };

    ghost monotone = { λ x. window_monotone };

    fn code(&self) -> u8 {
        1
    }

    fn respond(&self, tasks: &[Task], position: usize, above: TaskSet) -> Option<u32> {
        let task = tasks[position];
        let mut worst: u32 = 0;
        let mut release = 0;
        let mut end = 0;
        for job in 1..=64 {
            end = settle(
                tasks,
                above,
                job * task.execution,
                end + task.execution,
                release + task.deadline,
            )?;
            worst = worst.max(end - release);
            release += task.period;
            if end <= release {
                return Some(worst);
            }
        }
        None
    }
}
