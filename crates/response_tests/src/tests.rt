// The worked cases, and the edges of what the tests admit.
use response::one_job::OneJob;
use response::test::ResponseTest;
use response::window::Window;
use std::test::Fail;
use tasks::admission::Admission;
use tasks::set::TaskSet;
use tasks::task::{Candidate, Task, Timing};

// The tests of each crate vary other fields, so each has a function of its own.
fn task(id: u32, execution: u32, deadline: u32, period: u32, section: u32) -> Result<Task, Fail> {
    let candidate = Candidate {
        id,
        tier: 0,
        weight: 1,
        section,
        execution,
        deadline,
        period,
    };
    Ok(candidate.check(0)?)
}

fn timing(deadline: u32, period: u32, section: u32) -> Timing {
    Timing {
        execution: 2,
        deadline,
        period,
        section,
    }
}

#[test]
fn one_job_of_three(rt: HostRuntime) -> Result<(), Fail> {
    let tasks = [
        task(1, 1, 4, 4, 0)?,
        task(2, 2, 6, 6, 0)?,
        task(3, 3, 12, 12, 0)?,
    ];
    assert_eq!(rt;
        OneJob.respond(&tasks, 2, TaskSet { word: 0b011 }),
        Some(10)
    );
    assert_eq!(rt; OneJob.respond(&tasks, 0, TaskSet { word: 0b100 }), Some(4));
    assert_eq!(rt; OneJob.respond(&tasks, 1, TaskSet { word: 0b101 }), None);
    Ok(())
}

#[test]
fn one_job_blocked(rt: HostRuntime) -> Result<(), Fail> {
    let tasks = [
        task(1, 1, 4, 4, 0)?,
        task(2, 2, 6, 6, 0)?,
        task(3, 3, 12, 12, 2)?,
    ];
    assert_eq!(rt; OneJob.respond(&tasks, 0, TaskSet::EMPTY), Some(3));
    assert_eq!(rt; OneJob.respond(&tasks, 1, TaskSet { word: 0b001 }), Some(6));
    assert_eq!(rt; OneJob.respond(&tasks, 0, TaskSet { word: 0b010 }), None);
    Ok(())
}

#[test]
fn window_of_two(rt: HostRuntime) -> Result<(), Fail> {
    let above = TaskSet::EMPTY.with(0);
    let in_time = [task(1, 26, 70, 70, 0)?, task(2, 62, 118, 100, 0)?];
    assert_eq!(rt; Window.respond(&in_time, 1, above), Some(118));
    let late = [task(1, 26, 70, 70, 0)?, task(2, 62, 117, 100, 0)?];
    assert_eq!(rt; Window.respond(&late, 1, above), None);
    Ok(())
}

#[test]
fn codes_and_admissions(rt: HostRuntime) {
    assert_eq!(rt; (OneJob.code(), Window.code()), (0, 1));
    assert!(rt; OneJob.admits(timing(5, 5, 1)));
    assert!(rt; !OneJob.admits(timing(6, 5, 1)));
    assert!(rt; Window.admits(timing(6, 5, 0)));
    assert!(rt; !Window.admits(timing(5, 5, 1)));
}
