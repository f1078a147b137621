// Response times by scanning: every candidate time is tried, from the smallest up.
use crate::table::{Row, Test};
use std::alloc::{AllocError, Global};

// The place value of a task in a set: a set is a number, as in the questions that a plan is asked.
pub fn bit(task: usize) -> u64 {
    if task < 64 { 1 << task } else { 0 }
}

pub fn has(set: u64, task: usize) -> bool {
    set & bit(task) != 0
}

// The sum of the place values below a count.
pub fn every(count: usize) -> u64 {
    bit(count).saturating_sub(1)
}

// How many jobs of a period are released before a tick, if the first comes at 0.
fn releases(period: u64, ticks: u64) -> u64 {
    ticks
        .saturating_sub(1)
        .checked_div(period)
        .map_or(0, |later| later.saturating_add(1))
}

// A task, and the set of the tasks that are above it.
#[derive(Clone, Copy)]
struct Level<'a> {
    rows: &'a [Row],
    above: u64,
    task: usize,
    row: Row,
}

impl Level<'_> {
    // What the tasks above ask for before a tick.
    fn load(&self, ticks: u64) -> u64 {
        self.rows
            .iter()
            .enumerate()
            .filter(|(task, _)| has(self.above, *task))
            .map(|(_, row)| row.execution.saturating_mul(releases(row.period, ticks)))
            .fold(0, u64::saturating_add)
    }

    // The longest section of a task that is neither above nor the task itself.
    fn blocking(&self) -> u64 {
        self.rows
            .iter()
            .enumerate()
            .filter(|(other, _)| *other != self.task && !has(self.above, *other))
            .map(|(_, below)| below.section)
            .max()
            .unwrap_or(0)
    }

    // The least time from `from` to `last` that is `base` and the load of the tasks above.
    fn scan(&self, base: u64, from: u64, last: u64) -> Option<u64> {
        (from..last.saturating_add(1)).find(|time| base.saturating_add(self.load(*time)) == *time)
    }

    fn one_job(&self) -> Option<u64> {
        let base = self.row.execution.saturating_add(self.blocking());
        self.scan(base, 1, self.row.deadline)
    }

    fn window(&self) -> Option<u64> {
        let row = self.row;
        let mut worst: u64 = 0;
        let mut from = 1;
        for job in 0..64u64 {
            let released = row.period.saturating_mul(job);
            let base = row.execution.saturating_mul(job + 1);
            let end = self.scan(base, from, released.saturating_add(row.deadline))?;
            worst = worst.max(end.saturating_sub(released));
            if end <= released.saturating_add(row.period) {
                return Some(worst);
            }
            from = end;
        }
        None
    }
}

// The time of a task with the tasks of a set above it; none where it is late. Task and set are the two parts of a question; `Level` holds them
// once a time is sought.
pub fn time(test: Test, rows: &[Row], task: usize, above: u64) -> Option<u64> {
    let row = *rows.get(task)?;
    let level = Level {
        rows,
        above,
        task,
        row,
    };
    match test {
        Test::OneJob => level.one_job(),
        Test::Window => level.window(),
    }
}

// The times of every task below every set of tasks.
#[derive(Drop)]
pub struct Times {
    pub count: usize,
    // the sets one after the other, in each the tasks; none also for a task that is in the set. One list, since a list for each set would be as
    // many allocations.
    places: Vec<Option<u64>>,
}

impl Times {
    pub fn new(heap: Global, test: Test, rows: &[Row]) -> Result<Times, AllocError> {
        let mut places = Vec::new(heap);
        for above in 0..bit(rows.len()) {
            for task in 0..rows.len() {
                if has(above, task) {
                    places.push(None)?;
                } else {
                    places.push(time(test, rows, task, above))?;
                }
            }
        }
        Ok(Times {
            count: rows.len(),
            places,
        })
    }

    pub fn get(&self, task: usize, above: u64) -> Option<u64> {
        let set = usize::try_from(above).unwrap_or(0);
        let place = set.saturating_mul(self.count).saturating_add(task);
        self.places.get(place).copied()?
    }
}
