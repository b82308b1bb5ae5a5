//! What no clause says: tables of two models at one station, with values worked by hand. The launch interval is 5 and
//! the station's length 6.
//!
//! A unit of A takes 7: it costs 1 from the station's beginning and 2 from 1 on, and leads to 1. One of B takes 3: it
//! costs 0 and leads to 0.
ghost use Rattle.std.specs.Prelude.{IfOk};
ghost use Rattle.sequence_rules.specs.Ranges.{AreTimes, AreLight};

use sequence_table::{Opened, Passed, Table, Tabled, Told, open_table};
use sequence_values::{Numbers, Times};
use std::alloc::{AllocError, Global};
use std::test::Fail;

// Two units of A, which takes 7, and two of B, which takes 3.
fn two_models(alloc: Global) -> Result<Times, AllocError>
    ensures times { IfOk result (λ t. AreTimes t) }
    ensures light { IfOk result (λ t. AreLight t) }
{
    Ok(Times {
        stations: 1,
        demands: Numbers::from_vec(vec![in alloc; 2, 2]?),
        work: Numbers::from_vec(vec![in alloc; 7, 3]?),
    })
}

fn opened(alloc: Global) -> Result<Table, Fail> {
    match open_table(alloc, &two_models(alloc)?, 5, 6) {
        Tabled::Done(table) => Ok(table),
        Tabled::NoMemory => Err("no memory")?,
    }
}

fn step(alloc: Global, table: &mut Table, node: u32, model: u32) -> Opened {
    if node >= table.len() || model >= table.models() {
        return Opened::NoMemory;
    }
    table.open(alloc, node, model)
}

fn passed(alloc: Global, table: &Table, charges: [u64; 2]) -> Result<Told, Fail> {
    if table.models() != 2 || charges[0] > 10_000 || charges[1] > 10_000 {
        return Err("other charges")?;
    }
    let charges = Numbers::from_vec(Vec::from_slice(alloc, &charges)?);
    match table.pass(alloc, &charges) {
        Passed::Done(told) => Ok(told),
        Passed::NoMemory => Err("no memory")?,
    }
}

// A value, or 0 where there is no such number of units or node.
fn value(told: &Told, left: u32, node: u32) -> u64 {
    if left > told.left() || node >= told.nodes() {
        return 0;
    }
    told.value(left, node)
}

// One node: every unit of A costs 1000, and every unit of B is charged 1000.
#[test]
fn one_node_with_equal_costs(rt: HostRuntime) -> Result<(), Fail> {
    let table = opened(rt.alloc())?;
    let told = passed(rt.alloc(), &table, [0, 1000])?;
    let values = [value(&told, 0, 0), value(&told, 1, 0), value(&told, 4, 0)];
    assert_eq!(rt; values, [0, 1000, 4000]);
    Ok(())
}

// One node: units of A alone are the least, until the step of A is opened. From 1 on each costs 2000.
#[test]
fn an_opened_step_is_dearer(rt: HostRuntime) -> Result<(), Fail> {
    let mut table = opened(rt.alloc())?;
    let first = passed(rt.alloc(), &table, [0, 5000])?;
    let opened = step(rt.alloc(), &mut table, 0, 0);
    let added = matches!(opened, Opened::Added(1));
    let second = passed(rt.alloc(), &table, [0, 5000])?;
    let before = value(&first, 4, 0) == 4000;
    let after = value(&second, 4, 0) == 7000;
    let behind = value(&second, 3, 1) == 6000;
    assert!(rt; added & before & after & behind);
    Ok(())
}

// A leads from 1 to 1, and B from 0 to 0 and from 1 to 0.
#[test]
fn steps_that_lead_to_known_nodes(rt: HostRuntime) -> Result<(), Fail> {
    let mut table = opened(rt.alloc())?;
    let first = matches!(step(rt.alloc(), &mut table, 0, 1), Opened::Known(0));
    let second = matches!(step(rt.alloc(), &mut table, 0, 0), Opened::Added(1));
    let third = matches!(step(rt.alloc(), &mut table, 1, 0), Opened::Known(1));
    let fourth = matches!(step(rt.alloc(), &mut table, 1, 1), Opened::Known(0));
    assert!(rt; first & second & third & fourth);
    Ok(())
}

// One model of 1000 units, each of which takes one more than the launch interval: the starts rise by one.
fn thousand_units(alloc: Global) -> Result<Times, AllocError>
    ensures times { IfOk result (λ t. AreTimes t) }
    ensures light { IfOk result (λ t. AreLight t) }
{
    Ok(Times {
        stations: 1,
        demands: Numbers::from_vec(vec![in alloc; 1000]?),
        work: Numbers::from_vec(vec![in alloc; 6]?),
    })
}

// How many steps in a row add a node, up to so many.
fn added_in_a_row(alloc: Global, table: &mut Table, most: u32) -> u32 {
    for k in 0..most {
        if !matches!(step(alloc, table, k, 0), Opened::Added(_)) {
            return k;
        }
    }
    most
}

// A table of 1000 units has room for 1998 nodes.
#[test]
fn a_table_that_is_full(rt: HostRuntime) -> Result<(), Fail> {
    let mut table = match open_table(rt.alloc(), &thousand_units(rt.alloc())?, 5, 1_000_000) {
        Tabled::Done(table) => table,
        Tabled::NoMemory => return Err("no memory")?,
    };
    let added = added_in_a_row(rt.alloc(), &mut table, 3000);
    let full = matches!(step(rt.alloc(), &mut table, 1997, 0), Opened::Full);
    assert_eq!(rt; (added, full, table.len()), (1997, true, 1998));
    Ok(())
}
