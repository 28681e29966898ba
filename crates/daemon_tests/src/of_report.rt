//! Which lines are due.

use daemon::{Due, Report, Totals};
use figures::{Figures, Refusal};
use std::test::Fail;

const NOTHING: Totals = Totals {
    stops: 0,
    returns: 0,
    suspicions: 0,
    rollbacks: 0,
    refused: 0,
    failed: 0,
    idle: 0,
    lines: 0,
    memory: 0,
};

const NO_LINE: Due = Due {
    stops: None,
    returns: None,
    suspicions: None,
    rollbacks: None,
    refused: None,
    failed: None,
    idle: None,
    lines: None,
    memory: None,
};

#[test]
fn a_kind_has_one_line_a_second_with_all_that_came(rt: HostRuntime) -> Result<(), Fail> {
    let mut report = Report::new(NOTHING);
    assert_eq!(rt; report.due(NOTHING, 10), NO_LINE);
    let rows = [
        (3, 10, Some(3)),
        (5, 10, None),
        (5, 11, Some(2)),
        (5, 12, None),
        (6, 12, Some(1)),
        (9, 12, None),
        (9, 20, Some(3)),
    ];
    for (refused, second, line) in rows {
        let totals = Totals { refused, ..NOTHING };
        let due = Due {
            refused: line,
            ..NO_LINE
        };
        assert_eq!(rt; report.due(totals, second), due, "{refused} {second}");
    }
    Ok(())
}

#[test]
fn kinds_do_not_wait_for_one_another(rt: HostRuntime) -> Result<(), Fail> {
    let mut report = Report::new(NOTHING);
    let first = Totals {
        stops: 1,
        ..NOTHING
    };
    let second = Totals {
        stops: 2,
        failed: 7,
        ..NOTHING
    };
    let one = Due {
        stops: Some(1),
        ..NO_LINE
    };
    let other = Due {
        failed: Some(7),
        ..NO_LINE
    };
    assert_eq!(rt; report.due(first, 10), one);
    assert_eq!(rt; report.due(second, 10), other);
    Ok(())
}

#[test]
fn lines_are_counted_over_all_reasons(rt: HostRuntime) -> Result<(), Fail> {
    let mut figures = Figures::NONE;
    figures.refusals.count(Refusal::Unknown);
    figures.refusals.count(Refusal::Full);
    figures.refusals.count(Refusal::Full);
    figures.connections.idle = 5;
    figures.memory.refusals = 2;
    let totals = Totals::of(&figures);
    assert_eq!(rt; totals.lines, 3);
    assert_eq!(rt; totals.idle, 5);
    assert_eq!(rt; totals.memory, 2);
    Ok(())
}

#[test]
fn nodes_are_counted_over_both_kinds(rt: HostRuntime) -> Result<(), Fail> {
    let mut figures = Figures::NONE;
    figures.replicas.executors[0].stops = 3;
    figures.replicas.executors[0].is_up = true;
    figures.replicas.executors[6].stops = 1;
    figures.replicas.verifiers[2].stops = 2;
    let totals = Totals::of(&figures);
    assert_eq!(rt; totals.stops, 6);
    assert_eq!(rt; totals.returns, 4, "two are down");
    Ok(())
}
