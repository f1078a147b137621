// The second planner's tasks, and its own reading and packing of a table: a record is one number of 96 bits, and fields are taken off
// its end by division.
ghost use Rattle.std.specs.Prelude.{◌≡◌, ◌≤◌, min};
ghost use Rattle.second.specs.Times.{no_time};

use crate::reply::Reason;
pub use crate::reply::Refusal;
use std::alloc::{AllocError, Global};
use tasks::task::Candidate;

// The numbers of a task, of any size until they are checked, and beside the first planner's types, since this planner is independent of it.
#[derive(Clone, Copy, Debug, Default)]
pub struct Row {
    pub id: u64,
    pub tier: u64,
    pub weight: u64,
    pub section: u64,
    pub execution: u64,
    pub deadline: u64,
    pub period: u64,
}

// Whether a number is no time above 0, or a longer one than a record can hold.
fn is_no_time(ticks: u64) -> bool
    ensures { result ≡ no_time ticks }
{
    ticks == 0 || ticks > 1_048_575
}

impl Row {
    ghost use Rattle.second.specs.Checks.{beyond, checked};

    // Whether a record cannot hold the numbers beside the times.
    fn is_beyond(&self) -> bool
        ensures { result ≡ beyond self.now }
    {
        self.id > 63 || self.tier > 1 || self.weight > 65_535 || self.section > 4_095
    }

    // The first rule that a task breaks by itself.
    pub fn check(&self, test: Test) -> Result<(), Reason>
        ensures { result ≡ checked test self.now }
    {
        let admitted = match test {
            Test::OneJob => self.deadline <= self.period,
            Test::Window => self.section == 0,
        };
        if self.is_beyond() {
            Err(Reason::OutOfRange)
        } else if is_no_time(self.execution)
            || is_no_time(self.deadline)
            || is_no_time(self.period)
        {
            Err(Reason::OutOfRange)
        } else if self.period < self.execution || self.deadline < self.execution {
            Err(Reason::TooLittleTime)
        } else if self.execution <= self.section {
            Err(Reason::SectionTooLong)
        } else if !admitted {
            Err(Reason::NotForTest)
        } else {
            Ok(())
        }
    }
}

impl From<Candidate> for Row {
    ghost from_gives = { λ c r. r ≡ record { id = c.id; tier = c.tier; weight = c.weight; section = c.section; execution = c.execution; deadline = c.deadline; period = c.period } };

    fn from(candidate: Candidate) -> Row {
        Row {
            id: u64::from(candidate.id),
            tier: u64::from(candidate.tier),
            weight: u64::from(candidate.weight),
            section: u64::from(candidate.section),
            execution: u64::from(candidate.execution),
            deadline: u64::from(candidate.deadline),
            period: u64::from(candidate.period),
        }
    }
}

// As `short_id` of a question, for another type: a generic function would be longer than both.
fn narrow(number: u64) -> u32
    ensures { result ≡ min number 4294967295 }
{
    u32::try_from(number).unwrap_or(u32::MAX)
}

// A number that is too large becomes the largest.
impl From<Row> for Candidate {
    ghost from_gives = { λ r c. c ≡ record { id = min r.id 4294967295; tier = min r.tier 4294967295; weight = min r.weight 4294967295; section = min r.section 4294967295; execution = min r.execution 4294967295; deadline = min r.deadline 4294967295; period = min r.period 4294967295 } };

    fn from(row: Row) -> Candidate {
        Candidate {
            id: narrow(row.id),
            tier: narrow(row.tier),
            weight: narrow(row.weight),
            section: narrow(row.section),
            execution: narrow(row.execution),
            deadline: narrow(row.deadline),
            period: narrow(row.period),
        }
    }
}

// What stands in a list where there is no task: no list shows it.
pub const NO_ROW: Row = Row {
    id: 0,
    tier: 0,
    weight: 0,
    section: 0,
    execution: 0,
    deadline: 0,
    period: 0,
};

// The tasks of a table, of which there are at most sixteen. An array and its length, since a list is copied, and so that the two planners hold
// their tasks in lists of their own.
#[derive(Clone, Copy)]
pub struct Rows {
    count: usize,
    places: [Row; 16],
    ghost few: { count ≤ 16 },
}

// No Default: it cannot be derived beside a ghost field.
impl Rows {
    ghost use Rattle.std.specs.Prelude.{◌<◌, ◌++◌, ◌∷◌, [], length, position, filter, not, ◌==◌};
    ghost use Rattle.second.specs.Lists.{held};

    pub fn new() -> Rows
        ensures { held result ≡ [] }
    {
        Rows {
            count: 0,
            places: [NO_ROW; 16],
        }
    }

    // One task more at the end; the same list where sixteen are held.
    pub fn push(&mut self, row: Row)
        ensures room { length (held self.old) < 16 → held self.new ≡ held self.old ++ row ∷ [] }
        ensures full { length (held self.old) ≡ 16 → self.new ≡ self.old }
    {
        let end = self.count;
        if end < 16 {
            self.places[end] = row;
            self.count = end + 1;
        }
    }

    pub fn all(&self) -> &[Row]
        ensures tasks { result.now ≡ held self.now }
        ensures few { length result.now ≤ 16 }
    {
        &self.places[0..self.count]
    }

    // The place of the task of an id.
    pub fn find(&self, id: u64) -> Option<usize>
        ensures { result ≡ position (λ row. row.id == id) (held self.now) }
    {
        self.all().iter().position(|row| row.id == id)
    }

    // With one task more, by id.
    pub fn with(&self, row: Row) -> Rows {
        let mut rows = Rows::new();
        for other in self.all() {
            if other.id < row.id {
                rows.push(*other);
            }
        }
        rows.push(row);
        for other in self.all() {
            if other.id > row.id {
                rows.push(*other);
            }
        }
        rows
    }

    pub fn without(&self, id: u64) -> Rows
        ensures { held result ≡ filter (λ row. not (row.id == id)) (held self.now) }
    {
        let mut rows = Rows::new();
        for row in self.all() {
            if row.id != id {
                rows.push(*row);
            }
        }
        rows
    }
}

// What a task is tested by: one job, or each job of its busy window.
#[derive(Clone, Copy, PartialEq, Eq, Debug)]
pub enum Test {
    OneJob,
    Window,
}

// What an order costs: the sum of all tasks, or one sum for each tier.
#[derive(Clone, Copy, PartialEq, Eq, Debug)]
pub enum Pricing {
    Sum,
    Tiers,
}

#[derive(Clone, Copy, PartialEq, Eq, Debug)]
pub struct Kind {
    pub test: Test,
    pub pricing: Pricing,
}

impl Kind {
    // The codes of the test and of what an order costs, as digits to the base 4.
    fn code(self) -> u64 {
        4 * self.test as u64 + self.pricing as u64
    }
}

// The bytes as one number, the first byte the largest part.
fn joined(bytes: &[u8]) -> u128 {
    bytes
        .iter()
        .fold(0, |all, byte| behind(all, 256, u64::from(*byte)))
}

// Takes the last digit to a base off a number.
fn last(all: &mut u128, base: u64) -> u64 {
    let base = u128::from(base);
    let digit = all.checked_rem(base).unwrap_or(0);
    *all = all.checked_div(base).unwrap_or(0);
    u64::try_from(digit).unwrap_or(0)
}

// A task of a table, if its id is not below `floor`.
fn read_row(test: Test, bytes: &[u8], floor: u64) -> Result<Row, Reason> {
    let mut all = joined(bytes);
    let period = last(&mut all, 1 << 20);
    let deadline = last(&mut all, 1 << 20);
    let execution = last(&mut all, 1 << 20);
    let section = last(&mut all, 1 << 12);
    let weight = last(&mut all, 1 << 16);
    let spare = last(&mut all, 2);
    let tier = last(&mut all, 2);
    let id = last(&mut all, 64);
    let row = Row {
        id,
        tier,
        weight,
        section,
        execution,
        deadline,
        period,
    };
    if spare == 1 {
        return Err(Reason::SpareBit);
    }
    row.check(test)?;
    if id < floor {
        Err(Reason::IdTaken)
    } else {
        Ok(row)
    }
}

fn read_rows(test: Test, records: &[u8]) -> Result<Rows, Refusal> {
    let mut rows = Rows::new();
    let mut floor = 0;
    for (bytes, record) in records.chunks(12).zip(1..) {
        let row = read_row(test, bytes, floor).map_err(|reason| reason.in_record(record))?;
        floor = row.id.saturating_add(1);
        rows.push(row);
    }
    Ok(rows)
}

// The count of tasks that a header names.
fn read_header(kind: Kind, mut header: u128) -> Result<u64, Reason> {
    let count = last(&mut header, 32);
    let spare = last(&mut header, 8);
    let code = last(&mut header, 16);
    if header != 1 {
        Err(Reason::UnknownFormat)
    } else if spare > 0 {
        Err(Reason::SpareBit)
    } else if code != kind.code() {
        Err(Reason::OtherKind)
    } else if count > 16 {
        Err(Reason::TooManyTasks)
    } else {
        Ok(count)
    }
}

// The tasks of a table, or its first fault.
pub fn read(kind: Kind, file: &[u8]) -> Result<Rows, Refusal> {
    let [first, second, records @ ..] = file else {
        return Err(Reason::WrongLength.into());
    };
    let count = read_header(kind, joined(&[*first, *second]))?;
    if records.len() as u64 != count.saturating_mul(12) {
        return Err(Reason::WrongLength.into());
    }
    read_rows(kind.test, records)
}

// A digit to a base behind a number.
fn behind(all: u128, base: u64, digit: u64) -> u128 {
    all.wrapping_mul(u128::from(base))
        .wrapping_add(u128::from(digit))
}

fn packed_row(row: &Row) -> [u8; 16] {
    let mut all = u128::from(row.id);
    all = behind(all, 2, row.tier);
    all = behind(all, 2, 0);
    all = behind(all, 1 << 16, row.weight);
    all = behind(all, 1 << 12, row.section);
    all = behind(all, 1 << 20, row.execution);
    all = behind(all, 1 << 20, row.deadline);
    all = behind(all, 1 << 20, row.period);
    all.to_be_bytes()
}

// The bytes of a table.
pub fn packed(heap: Global, kind: Kind, rows: &[Row]) -> Result<Vec<u8>, AllocError> {
    let mut file = Vec::new(heap);
    file.push(u8::try_from(behind(1, 16, kind.code())).unwrap_or(255))?;
    file.push(u8::try_from(rows.len()).unwrap_or(255))?;
    for row in rows {
        file.extend_from_slice(&packed_row(row)[4..])?;
    }
    Ok(file)
}
