// A task, the candidate that it is checked from, and the timing that a response test reads.
ghost use Rattle.std.specs.Prelude.{◌<◌, ◌≤◌};

// The tier is a number, as records and clauses have it: an enum would be turned back into it.
#[derive(Clone, Copy)]
pub struct Task {
    pub id: u8,
    pub tier: u8,
    pub weight: u16,
    pub section: u16,
    pub execution: u32,
    pub deadline: u32,
    pub period: u32,
    ghost ids: { id < 64 },
    ghost tiers: { tier < 2 },
    ghost weights: { weight < 65536 },
    ghost sections: { section < 4096 },
    ghost deadlines: { deadline < 1048576 },
    ghost periods: { period < 1048576 },
    ghost in_deadline: { execution ≤ deadline },
    ghost in_period: { execution ≤ period },
    ghost preempted: { section < execution },
}

// The numbers of a task before they are checked: the same fields, wide enough for whatever a caller gives.
#[derive(Clone, Copy, Debug)]
pub struct Candidate {
    pub id: u32,
    pub tier: u32,
    pub weight: u32,
    pub section: u32,
    pub execution: u32,
    pub deadline: u32,
    pub period: u32,
}

#[derive(Clone, Copy)]
pub struct Timing {
    pub execution: u32,
    pub deadline: u32,
    pub period: u32,
    pub section: u32,
}
