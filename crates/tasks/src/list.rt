// Up to sixteen tasks, and the codes of a plan.
ghost use Rattle.std.specs.Prelude.{◌<◌, ◌≤◌};

use crate::task::Task;

// The tasks lie in the list itself: nothing is allocated for them. An array and its length, since a list is copied, and the library's list of a
// fixed size cannot be.
#[derive(Clone, Copy)]
pub struct TaskList {
    pub tasks: [Task; 16],
    pub len: usize,
    ghost few: { len ≤ 16 },
}

// The codes of a response test and of a cost. Numbers, since an enum would close the set of tests and costs.
#[derive(Clone, Copy)]
pub struct Codes {
    pub test: u8,
    pub cost: u8,
    ghost tests: { test < 4 },
    ghost costs: { cost < 4 },
}
