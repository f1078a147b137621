// Runs a second planner, made independently, beside the first on random and damaged tables, and prints what was compared. A difference
// is printed with its table, and ends the program with an error.
#![tactic(auto)]

use costs::cost::Cost;
use costs::sum::Sum;
use costs::tiers::Tiers;
use counts::Counts;
use law::command::Command;
use pair::Pair;
use plan::plan::Plan;
use response::one_job::OneJob;
use response::test::ResponseTest;
use response::window::Window;
use second::draw::draw;
use second::random::Random;
use second::shadow::Shadow;
use second::table::{Kind, Pricing, Test, packed};
use std::env;

mod compare;
mod counts;
mod damage;
mod drill;
mod list;
mod pair;
mod play;
mod record;
mod reply;

// How many tables are drawn for each pair of a test and a cost, unless an argument says otherwise.
const TABLES: u64 = 256;

// How many random commands follow each table.
const COMMANDS: u64 = 100;

// A run of the program: how many tables it draws for each kind of plan, and what was compared so far.
#[derive(Drop)]
struct Session<'a> {
    rt: &'a HostRuntime,
    tables: u64,
    counts: Counts,
}

impl Session<'_> {
    // Draws tables of 0 to 7 tasks for plans of one kind.
    fn check<T: ResponseTest + Drop, C: Cost + Drop>(
        &mut self,
        first: Plan<T, C>,
        test: Test,
        pricing: Pricing,
    ) -> anyhow::Result<()> {
        let heap = self.rt.alloc();
        let kind = Kind { test, pricing };
        let mut pair = Pair {
            rt: self.rt,
            first,
            second: Shadow::new(heap, kind),
            random: Random::new(1 + test as u64 * 2 + pricing as u64),
            counts: self.counts,
        };
        for number in 0..self.tables {
            let rows = draw(&mut pair.random, test, number % 8);
            let file = packed(heap, kind, rows.all())?;
            pair.counts.tables = pair.counts.tables.saturating_add(1);
            pair.damage(&file)?;
            pair.load(&file)?;
            pair.compare(rows.all())?;
            pair.drill(COMMANDS)?;
            let _ = pair.obey(Command::Stop, 0)?;
        }
        self.counts = pair.counts;
        Ok(())
    }
}

// The number of tables that an argument asks for; by a match, since a `map_or` would hold the `?` in a closure.
fn wanted(rt: &HostRuntime) -> anyhow::Result<u64> {
    match env::args(rt)?.nth(1) {
        Some(text) => Ok(text.parse::<u64>()?),
        None => Ok(TABLES),
    }
}

fn run(rt: &HostRuntime) -> anyhow::Result<()> {
    let heap = rt.alloc();
    let mut session = Session {
        rt,
        tables: wanted(rt)?,
        counts: Counts::default(),
    };
    // four calls, since each has types of its own
    session.check(Plan::new(heap, OneJob, Sum)?, Test::OneJob, Pricing::Sum)?;
    session.check(
        Plan::new(heap, OneJob, Tiers)?,
        Test::OneJob,
        Pricing::Tiers,
    )?;
    session.check(Plan::new(heap, Window, Sum)?, Test::Window, Pricing::Sum)?;
    session.check(
        Plan::new(heap, Window, Tiers)?,
        Test::Window,
        Pricing::Tiers,
    )?;
    let counts = session.counts;
    println!(rt; "{counts}")?;
    Ok(())
}

fn main(rt: HostRuntime) -> anyhow::Result<()> {
    run(&rt)
}
