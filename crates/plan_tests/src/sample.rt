// A plan with the one-job test and the sum, and the sample table.
use costs::sum::Sum;
use plan::plan::Plan;
use response::one_job::OneJob;
use std::alloc::Global;
use std::test::Fail;
use tasks::fault::Fault;
use tasks::task::Candidate;

// The same bytes stand in the tests of the tables: one crate for both would be one more to prove.
pub const SAMPLE: [u8; 38] = [
    0x10, 0x03, 0x04, 0x00, 0x01, 0x00, 0x00, 0x00, 0x01, 0x00, 0x00, 0x40, 0x00, 0x04, 0x08, 0x00,
    0x01, 0x00, 0x00, 0x00, 0x02, 0x00, 0x00, 0x60, 0x00, 0x06, 0x0c, 0x00, 0x0a, 0x00, 0x00, 0x00,
    0x03, 0x00, 0x00, 0xc0, 0x00, 0x0c,
];

// No task in it.
pub const EMPTY: [u8; 2] = [0x10, 0x00];

pub fn new_plan(heap: Global) -> Result<Plan<OneJob, Sum>, Fail> {
    Ok(Plan::new(heap, OneJob, Sum)?)
}

// With its period for its deadline. The tests of each crate vary other fields, so each has a function of its own.
pub fn candidate(id: u32, execution: u32, period: u32) -> Candidate {
    Candidate {
        id,
        tier: 0,
        weight: 1,
        section: 0,
        execution,
        deadline: period,
        period,
    }
}

// The number that a call is refused with, if it is.
pub fn refusal<A: Drop>(answer: Result<A, Fault>) -> Option<u8> {
    answer.err().map(Fault::number)
}

#[test]
fn the_sample_through_all_commands(rt: HostRuntime) -> Result<(), Fail> {
    let mut plan = new_plan(rt.alloc())?;
    plan.load(&SAMPLE)?;
    assert!(rt; plan.vertex_bound() == 15);
    plan.add(candidate(9, 1, 1000))?;
    plan.drop(9)?;
    plan.start()?;
    let nine = plan.advance(9)?;
    assert!(rt; nine.count == 9 && !nine.finished);
    let rest = plan.advance(1_000_000)?;
    assert!(rt; rest.count == 1 && rest.finished);
    let mut out = [7u8; 14];
    let report = plan.report(&mut out)?;
    assert!(rt; report.bytes == 12 && report.first == 104 && report.second == 0);
    assert!(rt; &out == b"\x04\x00\x00\x01\x08\x00\x00\x03\x0c\x00\x00\x0a\x07\x07");
    let mut text = [0u8; 512];
    let count = plan.listing(&mut text)?;
    assert!(rt;
        count <= 512 && &text[0..count] == b"1 1 1\n2 2 3\n3 3 10\ncost 104 0\n".as_slice()
    );
    plan.stop()?;
    assert_eq!(rt; refusal(plan.stop()), Some(13));
    Ok(())
}

#[test]
fn asking_and_writing(rt: HostRuntime) -> Result<(), Fail> {
    let mut plan = new_plan(rt.alloc())?;
    plan.load(&SAMPLE)?;
    assert!(rt; plan.ask(3, 0b0110)? == Some(10));
    assert!(rt; plan.ask(1, 0b1000)? == Some(4));
    assert!(rt; plan.ask(2, 0b1010)?.is_none());
    let mut out = [7u8; 40];
    assert_eq!(rt; plan.write(&mut out)?, 38);
    assert!(rt; &out[0..38] == SAMPLE.as_slice() && out[38] == 7 && out[39] == 7);
    plan.load(&EMPTY)?;
    assert!(rt; plan.vertex_bound() == 0);
    assert_eq!(rt; plan.write(&mut out)?, 2);
    Ok(())
}
