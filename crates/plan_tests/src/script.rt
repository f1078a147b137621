// Some hundred commands on one plan.
use crate::sample::*;
use costs::sum::Sum;
use plan::plan::Plan;
use response::one_job::OneJob;
use std::test::Fail;

// An error where a check fails, so that the script ends there.
fn check(holds: bool) -> Result<(), Fail> {
    if holds {
        Ok(())
    } else {
        Err(Fail::new("a check of the script fails"))
    }
}

// Advances by four until nothing is left, and reports.
fn search_and_report(plan: &mut Plan<OneJob, Sum>) -> Result<(), Fail> {
    plan.start()?;
    check(refusal(plan.start()) == Some(12))?;
    check(plan.advance(4)?.count == 4)?;
    check(plan.advance(4)?.count == 4)?;
    let last = plan.advance(4)?;
    check(last.count == 2 && last.finished)?;
    check(plan.advance(4)?.count == 0)?;
    let mut out = [0u8; 12];
    check(plan.report(&mut out)?.first == 104)?;
    check(&out == b"\x04\x00\x00\x01\x08\x00\x00\x03\x0c\x00\x00\x0a")
}

#[test]
fn a_script_of_commands(rt: HostRuntime) -> Result<(), Fail> {
    let mut plan = new_plan(rt.alloc())?;
    for _ in 0..20 {
        plan.load(&SAMPLE)?;
        search_and_report(&mut plan)?;
        plan.drop(2)?;
        assert_eq!(rt; refusal(plan.stop()), Some(13));
        plan.add(candidate(2, 2, 6))?;
        search_and_report(&mut plan)?;
        plan.stop()?;
        search_and_report(&mut plan)?;
        plan.load(&EMPTY)?;
        assert_eq!(rt; refusal(plan.start()), Some(15));
    }
    Ok(())
}
