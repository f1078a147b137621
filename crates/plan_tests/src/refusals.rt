// Each refusal of the plan, in each state.
use crate::sample::*;
use std::test::Fail;
use tasks::task::Candidate;

#[test]
fn an_open_plan(rt: HostRuntime) -> Result<(), Fail> {
    let mut plan = new_plan(rt.alloc())?;
    let mut out = [0u8; 512];
    assert_eq!(rt; refusal(plan.advance(1)), Some(13));
    assert_eq!(rt; refusal(plan.stop()), Some(13));
    assert_eq!(rt; refusal(plan.report(&mut out)), Some(13));
    assert_eq!(rt; refusal(plan.listing(&mut out)), Some(13));
    assert_eq!(rt; refusal(plan.start()), Some(15));
    assert_eq!(rt; refusal(plan.drop(1)), Some(11));
    plan.load(&SAMPLE)?;
    assert_eq!(rt; refusal(plan.ask(4, 0)), Some(11));
    assert_eq!(rt; refusal(plan.ask(1, 0b10)), Some(19));
    assert_eq!(rt; refusal(plan.ask(1, 0b10000)), Some(11));
    assert_eq!(rt; refusal(plan.write(&mut out[0..37])), Some(18));
    Ok(())
}

#[test]
fn tasks_that_are_not_taken(rt: HostRuntime) -> Result<(), Fail> {
    let mut plan = new_plan(rt.alloc())?;
    plan.load(&SAMPLE)?;
    assert_eq!(rt; refusal(plan.add(candidate(64, 1, 4))), Some(5));
    assert_eq!(rt; refusal(plan.add(candidate(4, 5, 4))), Some(6));
    let blocking = Candidate {
        section: 1,
        ..candidate(4, 1, 4)
    };
    assert_eq!(rt; refusal(plan.add(blocking)), Some(7));
    let late = Candidate {
        deadline: 5,
        ..candidate(4, 1, 4)
    };
    assert_eq!(rt; refusal(plan.add(late)), Some(8));
    assert_eq!(rt; refusal(plan.add(candidate(3, 1, 4))), Some(9));
    assert_eq!(rt; refusal(plan.load(&SAMPLE[0..37])), Some(1));
    assert_eq!(rt; refusal(plan.ask(3, 0)), None);
    for id in 10..23 {
        plan.add(candidate(id, 1, 1000))?;
    }
    assert_eq!(rt; refusal(plan.add(candidate(40, 1, 1000))), Some(10));
    plan.load(&EMPTY)?;
    plan.add(candidate(1, 2, 3))?;
    plan.add(candidate(2, 2, 4))?;
    assert_eq!(rt; refusal(plan.start()), Some(16));
    assert_eq!(rt; refusal(plan.stop()), Some(13));
    Ok(())
}

#[test]
fn a_searching_plan(rt: HostRuntime) -> Result<(), Fail> {
    let mut plan = new_plan(rt.alloc())?;
    plan.load(&SAMPLE)?;
    plan.start()?;
    assert_eq!(rt; refusal(plan.load(&EMPTY)), Some(12));
    assert_eq!(rt; refusal(plan.add(candidate(4, 1, 4))), Some(12));
    assert_eq!(rt; refusal(plan.drop(7)), Some(12));
    assert_eq!(rt; refusal(plan.start()), Some(12));
    assert_eq!(rt; refusal(plan.report(&mut [])), Some(14));
    assert_eq!(rt; refusal(plan.listing(&mut [])), Some(14));
    assert_eq!(rt; refusal(plan.advance(1_000_001)), Some(17));
    assert_eq!(rt; refusal(plan.ask(3, 0b0110)), None);
    Ok(())
}

#[test]
fn a_finished_plan(rt: HostRuntime) -> Result<(), Fail> {
    let mut plan = new_plan(rt.alloc())?;
    let mut bytes = [0u8; 11];
    let mut text = [0u8; 511];
    plan.load(&SAMPLE)?;
    plan.start()?;
    assert_eq!(rt; refusal(plan.advance(15)), None);
    assert_eq!(rt; refusal(plan.report(&mut bytes)), Some(18));
    assert_eq!(rt; refusal(plan.listing(&mut text)), Some(18));
    assert_eq!(rt; refusal(plan.advance(1_000_001)), Some(17));
    assert_eq!(rt; refusal(plan.advance(5)), None);
    assert_eq!(rt; refusal(plan.drop(4)), Some(11));
    assert_eq!(rt; refusal(plan.report(&mut text)), None);
    plan.drop(3)?;
    assert_eq!(rt; refusal(plan.report(&mut text)), Some(13));
    Ok(())
}
