// The sample table, and an admission to decode it under.
ghost use Rattle.std.specs.Prelude.{Bool, nat_le};

use std::test::Fail;
use tasks::admission::Admission;
use tasks::list::{Codes, TaskList};
use tasks::task::{Candidate, Timing};

// Admits the tasks whose deadline is at most their period.
pub struct AtMostPeriod;

impl Admission for AtMostPeriod {
    ghost admitted = { λ _ t. nat_le t.deadline t.period };

    fn admits(&self, timing: Timing) -> bool {
        timing.deadline <= timing.period
    }
}

pub const CODES: Codes = Codes { test: 0, cost: 0 };

// The same bytes stand in the tests of the plan: one crate for both would be one more to prove.
pub const SAMPLE: [u8; 38] = [
    0x10, 0x03, 0x04, 0x00, 0x01, 0x00, 0x00, 0x00, 0x01, 0x00, 0x00, 0x40, 0x00, 0x04, 0x08, 0x00,
    0x01, 0x00, 0x00, 0x00, 0x02, 0x00, 0x00, 0x60, 0x00, 0x06, 0x0c, 0x00, 0x0a, 0x00, 0x00, 0x00,
    0x03, 0x00, 0x00, 0xc0, 0x00, 0x0c,
];

// Weight 1, tier 0, and the deadline equal to the period. The tests of each crate vary other fields, so each has a function of its own.
pub fn candidate(id: u32, section: u32, execution: u32, time: u32) -> Candidate {
    Candidate {
        id,
        tier: 0,
        weight: 1,
        section,
        execution,
        deadline: time,
        period: time,
    }
}

pub fn sample_tasks() -> Result<TaskList, Fail> {
    let mut tasks = TaskList::new();
    let heavy = Candidate {
        weight: 10,
        ..candidate(3, 0, 3, 12)
    };
    for candidate in [candidate(1, 0, 1, 4), candidate(2, 0, 2, 6), heavy] {
        tasks.push(candidate.check(0)?)?;
    }
    Ok(tasks)
}
