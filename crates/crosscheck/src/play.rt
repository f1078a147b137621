// The order that was found, on the tick machine: no job takes longer than its time, and without sections the worst workload reaches it.
use crate::pair::Pair;
use costs::cost::Cost;
use response::test::ResponseTest;
use second::every_order::Problem;
use second::random::Random;
use second::ticks::{Machine, Workload};
use second::times::bit;
use std::alloc::{AllocError, Global};

const TICKS: u64 = 400;

// The longest busy window is played to its end if it is no longer than this.
const MOST_TICKS: u64 = 10_000;

// The tasks of the order that was found are in time, so the 0 is never taken. A list beside the order, since both are given to the machine, and
// the times are printed where they differ.
fn times_of(heap: Global, problem: &Problem, order: &[usize]) -> Result<Vec<u64>, AllocError> {
    let mut times = Vec::new(heap);
    let mut above = 0;
    for task in order {
        times.push(problem.times.get(*task, above).unwrap_or(0))?;
        above |= bit(*task);
    }
    Ok(times)
}

// No busy window of the order is longer; none where a task has a section, or where a window may be too long to be played.
fn longest_window(problem: &Problem) -> Option<u64> {
    if problem.rows.iter().any(|row| row.section > 0) {
        return None;
    }
    problem
        .rows
        .iter()
        .map(|row| row.period.saturating_mul(64).saturating_add(row.deadline))
        .max()
        .filter(|longest| *longest <= MOST_TICKS)
}

impl<T: ResponseTest + Drop, C: Cost + Drop> Pair<'_, T, C> {
    pub fn play(&mut self, problem: &Problem) -> anyhow::Result<()> {
        for _ in 0..3u32 {
            let mut workload = Workload::Drawn(Random::new(self.random.between(0, 1 << 40)));
            self.play_one(problem, &mut workload, TICKS)?;
        }
        if let Some(ticks) = longest_window(problem) {
            self.play_one(problem, &mut Workload::Worst, ticks)?;
        }
        Ok(())
    }

    fn play_one(
        &mut self,
        problem: &Problem,
        workload: &mut Workload,
        ticks: u64,
    ) -> anyhow::Result<()> {
        let heap = self.rt.alloc();
        let order = self.second.order();
        let times = times_of(heap, problem, order)?;
        let mut machine = Machine::new(heap, problem, order, &times, workload)?;
        machine.play(ticks, workload)?;
        self.counts.jobs = self.counts.jobs.saturating_add(machine.ended);
        if machine.late > 0 || machine.missed_worst() {
            return self.differ("ticks", &times, &machine.lanes);
        }
        Ok(())
    }
}
