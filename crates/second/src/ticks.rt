// A tick machine: plays an order tick by tick, and looks whether a job takes longer than its task's time.
ghost use Rattle.std.specs.Prelude.{◌≡◌, ◌≢◌, ◌↔◌, All, Any, IfOk, IsTrue};
ghost use Rattle.second.specs.declared.ticks.Workload.TheVariants.{Worst};

use crate::every_order::Problem;
use crate::random::Random;
use crate::table::Row;
use std::alloc::{AllocError, Global};

// A job names its lane by the place, since jobs of all levels wait in one list.
#[derive(Clone, Copy)]
struct Job {
    level: usize,
    release: u64,
    need: u64,
    run: u64,
}

impl Job {
    // How long the job took, if it ends with a tick.
    fn spent(self, tick: u64) -> u64 {
        tick.saturating_add(1).saturating_sub(self.release)
    }
}

// A level of the order: its task, the time reported for it, its next release, and the longest that a job took.
#[derive(Clone, Copy, Debug)]
pub struct Lane {
    pub row: Row,
    pub time: u64,
    next: u64,
    pub longest: u64,
}

// Releases and needs of jobs: all at once and as much as can be, or random. An enum of two kinds, since a trait with a type for each would
// say the same in more lines.
#[derive(Drop)]
pub enum Workload {
    Worst,
    Drawn(Random),
}

impl Workload {
    pub fn is_worst(&self) -> bool
        ensures { IsTrue result ↔ (self.now ≡ Worst) }
    {
        matches!(self, Workload::Worst)
    }

    // How many ticks from 0 the first release comes.
    fn first(&mut self, row: Row) -> u64 {
        match self {
            Workload::Worst => 0,
            Workload::Drawn(random) => random.between(0, row.period),
        }
    }

    fn gap(&mut self, row: Row) -> u64 {
        match self {
            Workload::Worst => row.period,
            Workload::Drawn(random) => {
                let most = if random.once_in(3) { row.period } else { 0 };
                row.period.saturating_add(random.between(0, most))
            }
        }
    }

    fn need(&mut self, row: Row) -> u64 {
        match self {
            Workload::Worst => row.execution,
            Workload::Drawn(random) => {
                let least = row.section.saturating_add(1);
                if random.once_in(2) {
                    row.execution
                } else {
                    random.between(least, row.execution)
                }
            }
        }
    }
}

// The machine: its levels, the pending jobs by release, which of them ran last, and whether it was made for the worst workload. The workload itself
// stays with the caller, which goes on with its random numbers. One list for the jobs of all levels: a list in each lane would be one allocation more
// for each, and be printed with the lane.
#[derive(Drop)]
pub struct Machine {
    pub lanes: Vec<Lane>,
    pending: Vec<Job>,
    kept: Option<usize>,
    worst: bool,
    pub ended: u64,
    pub late: u64,
}

impl Machine {
    pub fn new(
        heap: Global,
        problem: &Problem,
        order: &[usize],
        times: &[u64],
        workload: &mut Workload,
    ) -> Result<Machine, AllocError>
        ensures { IfOk result (λ machine. IsTrue machine.worst ↔ (workload.old ≡ Worst)) }
    {
        let worst = workload.is_worst();
        let mut lanes = Vec::new(heap);
        for (task, time) in order.iter().zip(times) {
            // the tasks of an order are held, so the default row is never taken
            let row = problem.rows.get(*task).copied().unwrap_or_default();
            lanes.push(Lane {
                row,
                time: *time,
                next: workload.first(row),
                longest: 0,
            })?;
        }
        Ok(Machine {
            lanes,
            pending: Vec::new(heap),
            kept: None,
            worst,
            ended: 0,
            late: 0,
        })
    }

    // Releases the jobs of a tick.
    fn release(&mut self, tick: u64, workload: &mut Workload) -> Result<(), AllocError> {
        for (level, lane) in self.lanes.iter_mut().enumerate() {
            if lane.next <= tick {
                let row = lane.row;
                lane.next = tick.saturating_add(workload.gap(row));
                self.pending.push(Job {
                    level,
                    release: tick,
                    need: workload.need(row),
                    run: 0,
                })?;
            }
        }
        Ok(())
    }

    // The pending job that runs next, by its place.
    fn chosen(&self) -> Option<usize> {
        self.kept.or_else(|| {
            self.pending
                .iter()
                .enumerate()
                .min_by_key(|(_, job)| job.level)
                .map(|(place, _)| place)
        })
    }

    // Runs one job for a tick.
    fn run(&mut self, tick: u64) {
        let Some(place) = self.chosen() else {
            return;
        };
        self.kept = None;
        let Some(job) = self.pending.get_mut(place) else {
            return;
        };
        job.run = job.run.saturating_add(1);
        let job = *job;
        let Some(lane) = self.lanes.get_mut(job.level) else {
            return;
        };
        if job.run < lane.row.section {
            self.kept = Some(place);
        }
        if job.run >= job.need {
            lane.longest = lane.longest.max(job.spent(tick));
            self.ended = self.ended.saturating_add(1);
            let _ = self.pending.remove(place);
        }
    }

    // Whether the time of a job's level is over after a tick.
    fn is_late(&self, job: &Job, tick: u64) -> bool {
        self.lanes
            .get(job.level)
            .is_some_and(|lane| lane.time <= job.spent(tick))
    }

    // Counts the jobs that are pending after a tick although their time is over, or took longer.
    fn judge(&mut self, tick: u64) {
        let pending = self.pending.iter().filter(|job| self.is_late(job, tick));
        let longer = self.lanes.iter().filter(|lane| lane.time < lane.longest);
        let late = pending.count() as u64 + longer.count() as u64;
        self.late = self.late.saturating_add(late);
    }

    // Whether some job of each level took as long as its time.
    pub fn reached(&self) -> bool
        ensures { IsTrue result ↔ All (λ lane. lane.longest ≡ lane.time) self.now.lanes.items }
    {
        self.lanes.iter().all(|lane| lane.longest == lane.time)
    }

    // Whether it was made for the worst workload, and yet some level had no job that took as long as its time.
    pub fn missed_worst(&self) -> bool
        ensures { IsTrue result ↔ (IsTrue self.now.worst) × Any (λ lane. lane.longest ≢ lane.time) self.now.lanes.items }
    {
        self.worst && self.lanes.iter().any(|lane| lane.longest != lane.time)
    }

    // Plays some ticks from 0.
    pub fn play(&mut self, ticks: u64, workload: &mut Workload) -> Result<(), AllocError> {
        for tick in 0..ticks {
            self.release(tick, workload)?;
            self.run(tick);
            self.judge(tick);
        }
        Ok(())
    }
}
