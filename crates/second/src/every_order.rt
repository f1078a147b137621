// Orders of the tasks and what they cost; the cheapest of all orders, by trying each.
ghost use Rattle.std.specs.Prelude.{◌≡◌, ◌+◌, ◌≤◌, min};

use crate::table::{Kind, Pricing, Row};
use crate::times::{Times, bit};
use std::ops::Add;

// A cost: the total, or that of tier 0, and then that of tier 1. The first decides. A type of this planner's own, since it is independent of the first.
#[derive(Clone, Copy, PartialEq, Eq, PartialOrd, Ord, Debug, Default)]
pub struct Price {
    pub first: u64,
    pub second: u64,
}

impl Price {
    pub fn zero() -> Price
        ensures { result ≡ record { first = 0; second = 0 } }
    {
        Price::default()
    }

    // No `From`, since it takes three values to make a price.
    fn of(pricing: Pricing, row: Row, time: u64) -> Price {
        let product = row.weight.saturating_mul(time);
        if pricing == Pricing::Tiers && row.tier == 1 {
            Price {
                first: 0,
                second: product,
            }
        } else {
            Price {
                first: product,
                second: 0,
            }
        }
    }

    // As `+`, which saturates too.
    pub fn plus(self, other: Price) -> Price
        ensures first_added { result.first ≡ min (self.first + other.first) 18446744073709551615 }
        ensures second_added { result.second ≡ min (self.second + other.second) 18446744073709551615 }
    {
        self + other
    }
}

impl Add for Price {
    type Output = Price;

    ghost add_gives = { λ a b r. r ≡ record { first = min (a.first + b.first) 18446744073709551615; second = min (a.second + b.second) 18446744073709551615 } };

    fn add(self, other: Price) -> Price {
        Price {
            first: self.first.saturating_add(other.first),
            second: self.second.saturating_add(other.second),
        }
    }
}

// The tasks of at most eight levels, level 1 first. An array and its length, since the best path is a copy of the path that is walked.
#[derive(Clone, Copy)]
pub struct Path {
    count: usize,
    places: [usize; 8],
    ghost few: { count ≤ 8 },
}

// No Default: it cannot be derived beside a ghost field.
impl Path {
    ghost use Rattle.std.specs.Prelude.{◌<◌, ◌++◌, ◌∷◌, [], length, MatchOption};
    ghost use Rattle.second.specs.Lists.{levels};

    pub fn new() -> Path
        ensures { levels result ≡ [] }
    {
        Path {
            count: 0,
            places: [0; 8],
        }
    }

    // One level more at the end; the same path where there are eight.
    pub fn push(&mut self, task: usize)
        ensures room { length (levels self.old) < 8 → levels self.new ≡ levels self.old ++ task ∷ [] }
        ensures full { length (levels self.old) ≡ 8 → self.new ≡ self.old }
    {
        let end = self.count;
        if end < 8 {
            self.places[end] = task;
            self.count = end + 1;
        }
    }

    // Takes the last level off.
    pub fn pop(&mut self) -> Option<usize>
        ensures { MatchOption result ((levels self.old ≡ []) × (self.new ≡ self.old)) (λ task. levels self.old ≡ levels self.new ++ task ∷ []) }
    {
        if self.count == 0 {
            return None;
        }
        self.count -= 1;
        Some(self.places[self.count])
    }

    pub fn all(&self) -> &[usize]
        ensures tasks { result.now ≡ levels self.now }
        ensures few { length result.now ≤ 8 }
    {
        &self.places[0..self.count]
    }

    // Puts a task at a place, and the one that was there at the end.
    fn exchange_in(&mut self, task: usize, place: usize) {
        let end = self.count;
        self.push(task);
        if place < end && end < self.count {
            self.places[end] = self.places[place];
            self.places[place] = task;
        }
    }
}

// The tasks of a table with their times and prices.
#[derive(Clone, Copy)]
pub struct Problem<'a> {
    pub kind: Kind,
    pub rows: &'a [Row],
    pub times: &'a Times,
}

impl Problem<'_> {
    // The price of a task below a set of tasks; none where it is late.
    pub fn price(&self, task: usize, above: u64) -> Option<Price> {
        let time = self.times.get(task, above)?;
        // a task without a row takes the default row, and costs nothing
        let row = self.rows.get(task).copied().unwrap_or_default();
        Some(Price::of(self.kind.pricing, row, time))
    }

    // The price of the tasks of a path; none where one is late.
    pub fn path_price(&self, path: &[usize]) -> Option<Price> {
        // a loop, since a `try_fold` over the total and the set at once is no plainer
        let mut total = Price::zero();
        let mut above = 0;
        for task in path {
            total = total + self.price(*task, above)?;
            above |= bit(*task);
        }
        Some(total)
    }
}

// The order with a number: its digits to the bases 1, 2, 3, .. say where each task goes in turn.
fn numbered(count: usize, number: usize) -> Path {
    let mut path = Path::new();
    let mut rest = number;
    for task in 0..count {
        path.exchange_in(task, rest % (task + 1));
        rest /= task + 1;
    }
    path
}

// What the cheapest of all orders that pass costs; none where none passes.
pub fn try_all(problem: &Problem) -> Option<Price> {
    let count = problem.rows.len();
    let orders = (1..=count).fold(1, usize::saturating_mul);
    (0..orders)
        .filter_map(|number| problem.path_price(numbered(count, number).all()))
        .min()
}
