// Reads a packed table from standard input, finds its cheapest order, and prints the listing or the line of a refusal.
#![tactic(auto)]

use costs::cost::Cost;
use costs::sum::Sum;
use costs::tiers::Tiers;
use law::command::{Command, Outcome};
use plan::plan::Plan;
use plan::run::run_new;
use response::one_job::OneJob;
use response::test::ResponseTest;
use response::window::Window;
use std::io;
use std::io::{Read, Write};
use tables::table::codes;
use tasks::fault::Fault;
use tasks::list::Codes;
use text::{LISTING_LEN, REFUSAL_LEN, refusal_line};

// A longer input is no table: it is refused by its header or its length, whatever follows.
const LONGEST_INPUT: u64 = 1024;

// How many vertices are examined at a time, and how many times at most.
const STEP: u32 = 1_000_000;

const STEPS: u32 = 1_000;

// The handle goes to each function that prints.
fn print_refusal(rt: &HostRuntime, fault: Fault) -> io::Result<()> {
    let mut line = [0u8; REFUSAL_LEN];
    if let Ok(count) = refusal_line(fault, &mut line) {
        rt.stdout().write_all(&line[0..count])?;
    }
    Ok(())
}

fn print_listing<T: ResponseTest + Drop, C: Cost + Drop>(
    rt: &HostRuntime,
    plan: &Plan<T, C>,
) -> io::Result<()> {
    let mut text = [0u8; LISTING_LEN];
    match plan.listing(&mut text) {
        Ok(count) => rt.stdout().write_all(&text[0..count.min(LISTING_LEN)]),
        Err(fault) => print_refusal(rt, fault),
    }
}

// How far the plan is, on standard error.
fn print_progress<T: ResponseTest + Drop, C: Cost + Drop>(
    rt: &HostRuntime,
    plan: &Plan<T, C>,
    examined: u64,
) -> io::Result<()> {
    if let Some((first, second)) = plan.best_cost() {
        eprintln!(rt; "examined {examined} vertices, best cost {first} {second}")?;
    }
    Ok(())
}

// Advances until the plan is finished, or for long enough.
fn advance_to_the_end<T: ResponseTest + Drop, C: Cost + Drop>(
    rt: &HostRuntime,
    plan: &mut Plan<T, C>,
) -> io::Result<()> {
    let mut examined = 0u64;
    for _ in 0..STEPS {
        match plan.apply(Command::Advance(STEP), &mut []) {
            Ok(
                Outcome::Advanced {
                    count,
                    finished: false,
                },
            ) => examined = examined.saturating_add(u64::from(count)),
            _ => break,
        }
        print_progress(rt, plan, examined)?;
    }
    Ok(())
}

fn plan_table<T: ResponseTest + Drop, C: Cost + Drop>(
    rt: &HostRuntime,
    test: T,
    cost: C,
    file: &[u8],
) -> anyhow::Result<()> {
    let commands = [Command::Load(file), Command::Start];
    let (mut plan, answers) = run_new(rt.alloc(), test, cost, &commands, &mut [])?;
    match answers.iter().find_map(|answer| answer.err()) {
        Some(fault) => print_refusal(rt, fault)?,
        None => {
            advance_to_the_end(rt, &mut plan)?;
            print_listing(rt, &plan)?;
        }
    }
    Ok(())
}

fn main(rt: HostRuntime) -> anyhow::Result<()> {
    let mut file = Vec::new(rt.alloc());
    rt.stdin().take(LONGEST_INPUT).read_to_end(&mut file)?;
    // The codes stay numbers: tests and costs of others have codes too, so no enum of this program lists them. Each arm
    // is a call of its own, since its types are others.
    match codes(&file) {
        Some(
            Codes {
                test: 0,
                cost: 1,
                ..
            },
        ) => plan_table(&rt, OneJob, Tiers, &file),
        Some(
            Codes {
                test: 1,
                cost: 0,
                ..
            },
        ) => plan_table(&rt, Window, Sum, &file),
        Some(
            Codes {
                test: 1,
                cost: 1,
                ..
            },
        ) => plan_table(&rt, Window, Tiers, &file),
        // also where a code is missing, or is that of no kind here
        _ => plan_table(&rt, OneJob, Sum, &file),
    }
}
