// What a load makes of a map and of a sheet, and what a refused one leaves of them.
use crate::tests::{marked, read, told, wire};
use dimacs::load::{load_map, load_sheet};
use ruler::map::Map;
use ruler::plane::Plane;
use ruler::ruler::Ruler;
use sheet::sheet::Sheet;
use std::test::Fail;

const WORKED: &[u8] =
    b"p min 4 4\nn 1 3\nn 2 2\nn 3 -4\nn 4 -1\na 1 3 0 5 2\na 2 3 0 5 1\na 3 4 0 5 2\na 2 4 0 5 2\n";

fn worked_map() -> Map {
    let mut map = Map::empty();
    let _ = load_map(&mut map, WORKED);
    map
}

// The worked file over its own map.
fn worked_sheet() -> Sheet<Map> {
    let mut sheet = Sheet::open(worked_map());
    let _ = load_sheet(&mut sheet, WORKED);
    sheet
}

#[test]
fn a_map_has_the_shortest_lengths(rt: HostRuntime) {
    let mut map = Map::empty();
    assert_eq!(rt; read(load_map(&mut map, WORKED)), Ok(()));
    assert_eq!(rt; map.length(1, 3), Some(2));
    assert_eq!(rt; map.length(2, 3), Some(1));
    assert_eq!(rt; map.length(3, 4), Some(2));
    assert_eq!(rt; map.length(2, 4), Some(2));
    assert_eq!(rt; map.length(1, 4), Some(4));
    assert_eq!(rt; map.length(4, 1), Some(4_000_000));
    assert_eq!(rt; map.length(1, 2), Some(4_000_000));
    assert_eq!(rt; map.length(4, 4), Some(0));
    assert_eq!(rt; map.length(4, 5), None);
}

// The shorter of two arcs counts, an arc from a site to itself never does, and one of length 0 may stand in a way.
#[test]
fn arcs_may_repeat_and_be_0_long(rt: HostRuntime) {
    let file = b"p min 3 5\na 1 2 0 0 9\na 1 2 0 0 4\na 1 2 0 0 6\na 2 2 0 0 7\na 2 3 0 0 0\n";
    let mut map = Map::empty();
    assert_eq!(rt; read(load_map(&mut map, file)), Ok(()));
    assert_eq!(rt; map.length(1, 2), Some(4));
    assert_eq!(rt; map.length(2, 2), Some(0));
    assert_eq!(rt; map.length(1, 3), Some(4));
    assert_eq!(rt; map.length(3, 1), Some(4_000_000));
}

#[test]
fn a_load_replaces_the_map(rt: HostRuntime) {
    let mut map = worked_map();
    assert_eq!(rt;
        read(load_map(&mut map, b"p min 3 1\na 3 1 0 0 7\n")),
        Ok(())
    );
    assert_eq!(rt; map.length(3, 1), Some(7));
    assert_eq!(rt; map.length(1, 3), Some(4_000_000));
    assert_eq!(rt; map.known(4), false);
}

#[test]
fn a_refused_load_leaves_the_map(rt: HostRuntime) {
    let mut map = worked_map();
    let late = b"p min 9 1\na 1 3 0 0 1\nx\n";
    assert_eq!(rt; read(load_map(&mut map, late)), Err((24, 3, 1, 0)));
    let incomplete = b"p min 9 2\na 1 3 0 0 1\n";
    assert_eq!(rt; read(load_map(&mut map, incomplete)), Err((30, 3, 0, 0)));
    assert_eq!(rt; map.length(1, 3), Some(2));
    assert_eq!(rt; map.length(1, 4), Some(4));
    assert_eq!(rt; map.length(4, 1), Some(4_000_000));
    assert_eq!(rt; map.known(5), false);
}

#[test]
fn the_worked_sheet_plans_with_area_9(rt: HostRuntime) {
    let mut sheet = Sheet::open(worked_map());
    assert_eq!(rt; read(load_sheet(&mut sheet, WORKED)), Ok(()));
    assert_eq!(rt; told(sheet.plan()), Ok(()));
    assert_eq!(rt; told(sheet.area()), Ok(9));
    assert_eq!(rt; told(sheet.wire(0)), Ok(Some((1, 3, 3))));
    assert_eq!(rt; told(sheet.wire(1)), Ok(Some((2, 3, 1))));
    assert_eq!(rt; told(sheet.wire(2)), Ok(Some((2, 4, 1))));
    assert_eq!(rt; told(sheet.wire(3)), Ok(None));
    assert_eq!(rt; told(sheet.mark(5)), Err((3, 5)));
}

#[test]
fn the_worked_wires_pass_the_audit(rt: HostRuntime) {
    let sheet = worked_sheet();
    let list = [wire(1, 3, 3), wire(2, 3, 1), wire(2, 4, 1)];
    assert_eq!(rt; told(sheet.audit(&list, &marked([0, 1, 2, 3]))), Ok(9));
}

#[test]
fn a_sheet_with_terminals_takes_no_load(rt: HostRuntime) {
    let mut sheet = worked_sheet();
    assert_eq!(rt; told(sheet.plan()), Ok(()));
    assert_eq!(rt; read(load_sheet(&mut sheet, WORKED)), Err((22, 0, 0, 0)));
    assert_eq!(rt; read(load_sheet(&mut sheet, b"")), Err((22, 0, 0, 0)));
    assert_eq!(rt; told(sheet.area()), Ok(9));
    assert_eq!(rt; told(sheet.wire(0)), Ok(Some((1, 3, 3))));
}

// After the last terminal is lifted the sheet takes a load again.
#[test]
fn a_lifted_sheet_takes_a_load(rt: HostRuntime) {
    let mut sheet = Sheet::open(worked_map());
    assert_eq!(rt; told(sheet.seat(2, 4, 1)), Ok(()));
    assert_eq!(rt; read(load_sheet(&mut sheet, WORKED)), Err((22, 0, 0, 0)));
    assert_eq!(rt; told(sheet.lift(2)), Ok(()));
    assert_eq!(rt; read(load_sheet(&mut sheet, WORKED)), Ok(()));
    assert_eq!(rt; told(sheet.plan()), Ok(()));
    assert_eq!(rt; told(sheet.area()), Ok(9));
}

// A plan without terminals stands until a load fills the sheet.
#[test]
fn a_refused_load_leaves_the_sheet(rt: HostRuntime) {
    let mut sheet = Sheet::open(worked_map());
    assert_eq!(rt; told(sheet.plan()), Ok(()));
    let late = b"p min 4 0\nn 1 1\nn 2 -1\nx\n";
    assert_eq!(rt; read(load_sheet(&mut sheet, late)), Err((24, 4, 1, 0)));
    assert_eq!(rt; told(sheet.area()), Ok(0));
    assert_eq!(rt; told(sheet.mark(1)), Err((3, 1)));
    assert_eq!(rt; read(load_sheet(&mut sheet, WORKED)), Ok(()));
    assert_eq!(rt; told(sheet.area()), Err((7, 0)));
}

// A map of 2 sites does not know the third, which the file may still name.
#[test]
fn every_node_stands_on_a_known_site(rt: HostRuntime) -> Result<(), Fail> {
    let mut map = Map::empty();
    map.begin(2, 50)?;
    let mut sheet = Sheet::open(map);
    let third = b"p min 3 0\nn 2 1\nn 3 -1\nx\n";
    assert_eq!(rt; read(load_sheet(&mut sheet, third)), Err((5, 3, 0, 3)));
    let zero = b"p min 3 0\nn 3 0\n";
    assert_eq!(rt; read(load_sheet(&mut sheet, zero)), Err((4, 2, 0, 3)));
    assert_eq!(rt; told(sheet.mark(2)), Err((3, 2)));
    let arcs = b"p min 3 1\nn 2 1\na 1 3 0 1 5\n";
    assert_eq!(rt; read(load_sheet(&mut sheet, arcs)), Ok(()));
    let mut nowhere = Sheet::open(Map::empty());
    assert_eq!(rt; read(load_sheet(&mut nowhere, arcs)), Err((5, 2, 0, 2)));
    Ok(())
}

// Over the plane the ids are points of one row, and the costs of the file count for nothing.
#[test]
fn a_sheet_over_the_plane_takes_its_lengths(rt: HostRuntime) {
    let mut sheet = Sheet::open(Plane);
    let file = b"p min 4 1\nn 1 2\nn 4 -2\na 1 4 0 2 100\n";
    assert_eq!(rt; read(load_sheet(&mut sheet, file)), Ok(()));
    assert_eq!(rt; told(sheet.plan()), Ok(()));
    assert_eq!(rt; told(sheet.area()), Ok(6));
}

// Flows that do not sum to 0 are loaded, and refused by the plan.
#[test]
fn an_unbalanced_file_is_loaded(rt: HostRuntime) {
    let mut sheet = Sheet::open(worked_map());
    assert_eq!(rt;
        read(load_sheet(&mut sheet, b"p min 4 0\nn 1 3\nn 3 -4\n")),
        Ok(())
    );
    assert_eq!(rt; told(sheet.plan()), Err((6, 0)));
}
