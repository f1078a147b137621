// The worked cases, run.
ghost use Rattle.std.specs.Prelude.{◌≡◌};

use costs::sum::Sum;
use response::one_job::OneJob;
use search::problem::Problem;
use search::search::Search;
use search::tree::vertex_bound;
use std::test::Fail;
use tasks::list::TaskList;
use tasks::task::Candidate;

// One task more, with its period for its deadline. The tests of each crate vary other fields, so each has a function of its own.
fn add(
    tasks: &mut TaskList,
    id: u32,
    execution: u32,
    period: u32,
    weight: u32,
) -> Result<(), Fail> {
    let candidate = Candidate {
        id,
        tier: 0,
        weight,
        section: 0,
        execution,
        deadline: period,
        period,
    };
    tasks.push(candidate.check(0)?)?;
    Ok(())
}

// Tasks under the one-job test and the sum.
fn under_sum(tasks: &TaskList) -> Problem<'_, OneJob, Sum>
    ensures { result.tasks.now ≡ tasks.now }
{
    Problem {
        test: &OneJob,
        cost: &Sum,
        tasks,
    }
}

fn three() -> Result<TaskList, Fail> {
    let mut tasks = TaskList::new();
    add(&mut tasks, 1, 1, 4, 1)?;
    add(&mut tasks, 2, 2, 6, 1)?;
    add(&mut tasks, 3, 3, 12, 10)?;
    Ok(tasks)
}

#[test]
fn first_order_of_three(rt: HostRuntime) -> Result<(), Fail> {
    let tasks = three()?;
    let Some(first) = under_sum(&tasks).first_order() else {
        return Err(Fail::new("no order"));
    };
    assert_eq!(rt; first.level(), 3);
    let [top, middle, bottom, ..] = first.order;
    assert_eq!(rt; top, 1);
    assert_eq!(rt; middle, 0);
    assert_eq!(rt; bottom, 2);
    let [first_time, second_time, third_time, ..] = first.times;
    assert_eq!(rt; first_time, 3);
    assert_eq!(rt; second_time, 2);
    assert_eq!(rt; third_time, 10);
    Ok(())
}

#[test]
fn search_of_three(rt: HostRuntime) -> Result<(), Fail> {
    let tasks = three()?;
    let problem = under_sum(&tasks);
    let mut search = Search::new(rt.alloc())?;
    search.start(problem)?;
    assert_eq!(rt; search.best_cost(&Sum, &tasks), 105);
    let nine = search.advance(problem, 9);
    assert_eq!(rt; nine.count, 9);
    assert!(rt; !nine.finished);
    let rest = search.advance(problem, vertex_bound(&tasks));
    assert_eq!(rt; rest.count, 1);
    assert!(rt; rest.finished);
    assert_eq!(rt; search.best_cost(&Sum, &tasks), 104);
    Ok(())
}

#[test]
fn no_order(rt: HostRuntime) -> Result<(), Fail> {
    let mut tasks = TaskList::new();
    add(&mut tasks, 1, 2, 3, 1)?;
    add(&mut tasks, 2, 2, 4, 1)?;
    let found = under_sum(&tasks).best_order(rt.alloc())?;
    assert!(rt; found.is_none());
    Ok(())
}

// The shorter task above the other costs 16.
#[test]
fn longer_task_above(rt: HostRuntime) -> Result<(), Fail> {
    let mut tasks = TaskList::new();
    add(&mut tasks, 1, 2, 3, 5)?;
    add(&mut tasks, 2, 1, 4, 1)?;
    let problem = under_sum(&tasks);
    let mut search = Search::new(rt.alloc())?;
    search.start(problem)?;
    let _ = search.advance(problem, vertex_bound(&tasks));
    let [top, ..] = search.best().order;
    assert_eq!(rt; top, 0);
    assert_eq!(rt; search.best_cost(&Sum, &tasks), 13);
    Ok(())
}
