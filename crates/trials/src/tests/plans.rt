// Plans: worked nets, and what observers answer before and after.
use crate::strip::Strip;
use crate::tests::told;
use ruler::plane::Plane;
use sheet::sheet::Sheet;

#[test]
fn an_empty_sheet_plans_with_area_0(rt: HostRuntime) {
    let mut sheet = Sheet::open(Plane);
    assert_eq!(rt; told(sheet.area()), Err((7, 0)));
    assert_eq!(rt; told(sheet.plan()), Ok(()));
    assert_eq!(rt; told(sheet.area()), Ok(0));
    assert_eq!(rt; told(sheet.wire(0)), Ok(None));
    assert_eq!(rt; told(sheet.mark(1)), Err((3, 1)));
}

// The nearest-first plan would have 12.
#[test]
fn four_pins_on_a_line_have_area_8(rt: HostRuntime) {
    let mut sheet = Sheet::open(Plane);
    assert_eq!(rt; told(sheet.seat(1, Plane::site(4, 0), 1)), Ok(()));
    assert_eq!(rt; told(sheet.seat(2, Plane::site(10, 0), 1)), Ok(()));
    assert_eq!(rt; told(sheet.plan()), Err((6, 0)));
    assert_eq!(rt; told(sheet.seat(3, Plane::site(6, 0), -1)), Ok(()));
    assert_eq!(rt; told(sheet.seat(4, Plane::site(0, 0), -1)), Ok(()));
    assert_eq!(rt; told(sheet.plan()), Ok(()));
    assert_eq!(rt; told(sheet.area()), Ok(8));
    assert_eq!(rt; told(sheet.wire(0)), Ok(Some((1, 4, 1))));
    assert_eq!(rt; told(sheet.wire(1)), Ok(Some((2, 3, 1))));
    assert_eq!(rt; told(sheet.wire(2)), Ok(None));
}

// Three sources and three sinks: 23 as seated, 25 after any exchange of two, 13 after the right turn of three.
#[test]
fn a_loop_of_three_improves_what_no_exchange_of_two_does(rt: HostRuntime) {
    let mut sheet = Sheet::open(Plane);
    assert_eq!(rt; told(sheet.seat(1, Plane::site(5, 5), 1)), Ok(()));
    assert_eq!(rt; told(sheet.seat(2, Plane::site(1, 12), 1)), Ok(()));
    assert_eq!(rt; told(sheet.seat(3, Plane::site(12, 10), 1)), Ok(()));
    assert_eq!(rt; told(sheet.seat(4, Plane::site(5, 11), -1)), Ok(()));
    assert_eq!(rt; told(sheet.seat(5, Plane::site(12, 12), -1)), Ok(()));
    assert_eq!(rt; told(sheet.seat(6, Plane::site(11, 5), -1)), Ok(()));
    assert_eq!(rt; told(sheet.plan()), Ok(()));
    assert_eq!(rt; told(sheet.area()), Ok(13));
}

#[test]
fn terminals_may_share_a_site(rt: HostRuntime) {
    let mut sheet = Sheet::open(Strip);
    assert_eq!(rt; told(sheet.seat(1, 5, 2)), Ok(()));
    assert_eq!(rt; told(sheet.seat(2, 5, -1)), Ok(()));
    assert_eq!(rt; told(sheet.seat(3, 7, -1)), Ok(()));
    assert_eq!(rt; told(sheet.plan()), Ok(()));
    assert_eq!(rt; told(sheet.area()), Ok(2));
    assert_eq!(rt; told(sheet.wire(0)), Ok(Some((1, 2, 1))));
    assert_eq!(rt; told(sheet.wire(1)), Ok(Some((1, 3, 1))));
}

#[test]
fn an_edit_opens_the_sheet(rt: HostRuntime) {
    let mut sheet = Sheet::open(Strip);
    assert_eq!(rt; told(sheet.seat(1, 0, 3)), Ok(()));
    assert_eq!(rt; told(sheet.seat(2, 4, -3)), Ok(()));
    assert_eq!(rt; told(sheet.plan()), Ok(()));
    assert_eq!(rt; told(sheet.seat(2, 4, -3)), Err((2, 2)));
    assert_eq!(rt; told(sheet.area()), Ok(12));
    assert_eq!(rt; told(sheet.move_to(2, 6)), Ok(()));
    assert_eq!(rt; told(sheet.area()), Err((7, 0)));
    assert_eq!(rt; told(sheet.wire(0)), Err((7, 0)));
    assert_eq!(rt; told(sheet.mark(1)), Err((7, 0)));
    assert_eq!(rt; told(sheet.mark(65)), Err((1, 65)));
    assert_eq!(rt; told(sheet.plan()), Ok(()));
    assert_eq!(rt; told(sheet.area()), Ok(18));
}

// 32 sources of 1,000,000 at site 0 and 32 sinks at site 99: every unit goes 99 far.
#[test]
fn full_currents_on_64_pins(rt: HostRuntime) {
    let mut sheet = Sheet::open(Strip);
    for id in 1..=32u32 {
        assert_eq!(rt; told(sheet.seat(id, 0, 1_000_000)), Ok(()));
    }
    for id in 33..=64u32 {
        assert_eq!(rt; told(sheet.seat(id, 99, -1_000_000)), Ok(()));
    }
    assert_eq!(rt; told(sheet.plan()), Ok(()));
    assert_eq!(rt; told(sheet.area()), Ok(3_168_000_000));
}
