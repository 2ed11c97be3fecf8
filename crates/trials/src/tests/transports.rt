// Small cases of transport, and its limits.
use std::test::Fail;
use transport::case::Case;
use transport::solve;

fn empty() -> Case {
    Case {
        sources: 0,
        sinks: 0,
        supply: [0; 64],
        demand: [0; 64],
        cost: [0; 4096],
    }
}

fn two_by_two() -> Case {
    let mut case = empty();
    case.sources = 2;
    case.sinks = 2;
    case.supply[0] = 1;
    case.supply[1] = 1;
    case.demand[0] = 1;
    case.demand[1] = 1;
    case.cost[0] = 2;
    case.cost[1] = 4;
    case.cost[64] = 4;
    case.cost[65] = 10;
    case
}

#[test]
fn one_source_serves_one_sink(rt: HostRuntime) -> Result<(), Fail> {
    let mut case = empty();
    case.sources = 1;
    case.sinks = 1;
    case.supply[0] = 7;
    case.demand[0] = 7;
    case.cost[0] = 3;
    let plan = solve(&case).ok_or("absent")?;
    assert_eq!(rt; plan.flow[0], 7);
    assert_eq!(rt; plan.source_mark[0], 0);
    assert_eq!(rt; plan.sink_mark[0], 3);
    Ok(())
}

// To send 1 at cost 2 first leaves 1 at cost 10; the other way round costs 4 + 4.
#[test]
fn nearest_first_is_not_least(rt: HostRuntime) -> Result<(), Fail> {
    let plan = solve(&two_by_two()).ok_or("absent")?;
    assert_eq!(rt; plan.flow[0], 0);
    assert_eq!(rt; plan.flow[1], 1);
    assert_eq!(rt; plan.flow[64], 1);
    assert_eq!(rt; plan.flow[65], 0);
    Ok(())
}

#[test]
fn nothing_is_planned(rt: HostRuntime) {
    assert!(rt; solve(&empty()).is_some());
}

#[test]
fn limits_are_kept(rt: HostRuntime) {
    let mut dear = two_by_two();
    dear.cost[65] = 4_000_001;
    assert!(rt; solve(&dear).is_none());
    let mut large = two_by_two();
    large.supply[0] = 1_000_001;
    large.demand[0] = 1_000_001;
    assert!(rt; solve(&large).is_none());
    let mut many = empty();
    many.sources = 32;
    many.sinks = 33;
    assert!(rt; solve(&many).is_none());
}

#[test]
fn sums_must_agree(rt: HostRuntime) {
    let mut case = two_by_two();
    case.demand[1] = 2;
    assert!(rt; solve(&case).is_none());
}
