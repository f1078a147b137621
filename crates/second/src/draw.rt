// Random tables: small numbers that a scan goes through, loads around the edge of what an order can bear, sections, equal costs,
// deadlines below and beyond periods, and now and then large numbers or a long busy window. Where a drawn number or the test
// chooses among numbers, a `match` or an `if` shows the odds.
use crate::random::Random;
use crate::table::{Row, Rows, Test};

// How the tasks of one table are drawn.
#[derive(Clone, Copy)]
struct Style {
    test: Test,
    // the periods
    shortest: u64,
    longest: u64,
    // the share of a task, in thousandths of the processor
    share: u64,
    // deadlines up to so many tenths of the period
    slack: u64,
    // the largest weight, and whether there are sections
    weight: u64,
    sections: bool,
}

impl Style {
    fn drawn(random: &mut Random, test: Test, count: u64) -> Style {
        let longest = random.between(6, 40);
        let load = random.between(300, 1200);
        let weight = match random.between(0, 4) {
            0 => 1,
            1 => 65_535,
            _ => 4,
        };
        let slack = random.between(8, 40);
        let sections = test == Test::OneJob && random.once_in(2);
        Style {
            test,
            shortest: random.between(2, 8),
            longest,
            share: load.checked_div(count).unwrap_or(0),
            slack,
            weight,
            sections,
        }
    }

    // Few tasks with long times: other numbers in other places than above, so only the struct is common.
    fn large(random: &mut Random, test: Test) -> Style {
        Style {
            test,
            shortest: 30_000,
            longest: 200_000,
            share: random.between(150, 350),
            slack: random.between(9, 13),
            weight: 65_535,
            sections: test == Test::OneJob,
        }
    }

    fn row(self, random: &mut Random, id: u64) -> Row {
        let period = random.between(self.shortest, self.longest.max(self.shortest));
        let share = self.share.saturating_mul(random.between(50, 150)) / 100;
        let usual = (share.saturating_mul(period) / 1000).clamp(1, period.max(1));
        let execution = if random.once_in(60) {
            period.max(1)
        } else {
            usual
        };
        let most = match self.test {
            Test::OneJob => period,
            Test::Window => self.slack.saturating_mul(period) / 10,
        };
        let deadline = match random.between(0, 3) {
            0 => random.between(execution, most),
            1 => most.max(execution),
            _ => random.between(period.min(most).max(execution), most),
        };
        let section = if self.sections && random.once_in(2) {
            random.between(0, (execution - 1).min(4095))
        } else {
            0
        };
        Row {
            id,
            tier: random.between(0, 1),
            weight: random.between(0, self.weight),
            section,
            execution,
            deadline,
            period,
        }
    }
}

// Two tasks that leave the processor hardly idle, so that busy windows have many jobs: the short one below the long one has about as
// many as the long one's execution time, on both sides of the limit of 64.
fn draw_long_window(random: &mut Random) -> Rows {
    let long = random.between(61, 67);
    let short = Row {
        id: random.between(0, 31),
        tier: random.between(0, 1),
        weight: random.between(0, 3),
        section: 0,
        execution: 1,
        deadline: long.saturating_add(random.between(0, 4)),
        period: 2,
    };
    let long = Row {
        id: random.between(32, 63),
        execution: long,
        deadline: random.between(long, 300),
        period: long
            .saturating_mul(2)
            .saturating_add(1)
            .saturating_sub(random.between(0, 2)),
        ..short
    };
    let mut rows = Rows::new();
    rows.push(short);
    rows.push(long);
    rows
}

// One task. The random numbers and the test are two parameters: a caller holds them in two places, and would make a struct for each draw.
pub fn draw_one(random: &mut Random, test: Test) -> Row {
    let style = Style::drawn(random, test, 5);
    let id = random.between(0, 63);
    style.row(random, id)
}

// The tasks of a table for plans with a test.
pub fn draw(random: &mut Random, test: Test, count: u64) -> Rows {
    if test == Test::Window && count == 2 && random.once_in(2) {
        return draw_long_window(random);
    }
    let style = if count <= 3 && random.once_in(16) {
        Style::large(random, test)
    } else {
        Style::drawn(random, test, count)
    };
    let mut rows = Rows::new();
    let mut id = random.between(0, 9);
    for _ in 0..count {
        rows.push(style.row(random, id.min(63)));
        id = id.saturating_add(random.between(1, 8));
    }
    rows
}
