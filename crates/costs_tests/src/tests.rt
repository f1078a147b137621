// The two costs and the third, joined over tasks, and the pair that is no cost.
use crate::largest::Pair;
use crate::late::Late;
use costs::cost::Cost;
use costs::fold::{total_cost, total_if_timed};
use costs::sum::Sum;
use costs::tiers::Tiers;
use std::test::Fail;
use tasks::list::TaskList;
use tasks::task::Candidate;

// The tests of each crate vary other fields, so each has a function of its own.
fn candidate(id: u32, tier: u32, weight: u32) -> Candidate {
    Candidate {
        id,
        tier,
        weight,
        section: 0,
        execution: 1,
        deadline: 12,
        period: 12,
    }
}

// Three tasks, the last of tier 1.
fn three() -> Result<TaskList, Fail> {
    let mut list = TaskList::new();
    list.push(candidate(1, 0, 1).check(0)?)?;
    list.push(candidate(2, 0, 1).check(0)?)?;
    list.push(candidate(3, 1, 10).check(0)?)?;
    Ok(list)
}

const TIMES: [u32; 16] = [1, 3, 10, 0, 0, 0, 0, 0, 0, 0, 0, 0, 0, 0, 0, 0];

#[test]
fn totals(rt: HostRuntime) -> Result<(), Fail> {
    let list = three()?;
    assert_eq!(rt; Sum.shown(total_cost(&Sum, &list, &TIMES)), (104, 0));
    assert_eq!(rt; Tiers.shown(total_cost(&Tiers, &list, &TIMES)), (4, 100));
    let late = Late { limit: 2 };
    assert_eq!(rt; late.shown(total_cost(&late, &list, &TIMES)), (2, 0));
    Ok(())
}

#[test]
fn late_tasks(rt: HostRuntime) -> Result<(), Fail> {
    let list = three()?;
    let mut times = [None; 16];
    times[0] = Some(1);
    times[1] = Some(3);
    assert!(rt; total_if_timed(&Sum, &list, &times).is_none());
    times[2] = Some(10);
    assert_eq!(rt; total_if_timed(&Sum, &list, &times), Some(104));
    Ok(())
}

#[test]
fn first_total_decides(rt: HostRuntime) {
    let low = Tiers.one(1, 0, 4);
    let high = Tiers.one(1, 0, 5);
    let other = Tiers.one(1, 1, 100);
    assert!(rt; Tiers.no_more(Tiers.join(low, other), high));
    assert!(rt; !Tiers.no_more(high, Tiers.join(low, other)));
    assert!(rt; !Tiers.no_more(Tiers.join(low, other), low));
}

#[test]
fn joined_pairs_swap(rt: HostRuntime) {
    let low = Pair {
        largest: 1,
        total: 100,
    };
    let high = Pair {
        largest: 2,
        total: 0,
    };
    let both = Pair {
        largest: 5,
        total: 1,
    };
    assert!(rt; low.no_more(high) && !high.no_more(low));
    assert!(rt; !low.join(both).no_more(high.join(both)));
    assert!(rt; high.join(both).no_more(low.join(both)));
}
