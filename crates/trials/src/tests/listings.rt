// Listings: the texts of planned sheets, and what a refusal leaves of the buffer.
use crate::tests::told;
use listing::list;
use listing::refusal::Refusal;
use ruler::plane::Plane;
use sheet::sheet::Sheet;

// The count of bytes, or a refusal's number and place.
fn listed(answer: Result<usize, Refusal>) -> Result<usize, (u32, u32)> {
    answer.map_err(|refusal| (refusal.number(), refusal.place()))
}

// A source of 3 and a sink of 3, four apart, planned.
fn one_wire() -> Sheet<Plane> {
    let mut sheet = Sheet::open(Plane);
    let _ = sheet.seat(1, Plane::site(0, 0), 3);
    let _ = sheet.seat(2, Plane::site(4, 0), -3);
    let _ = sheet.plan();
    sheet
}

#[test]
fn one_wire_fills_its_buffer(rt: HostRuntime) {
    let sheet = one_wire();
    let mut buffer = [b'.'; 13];
    assert_eq!(rt; listed(list(&sheet, &mut buffer)), Ok(13));
    assert_eq!(rt; buffer, *b"s 12\nf 1 2 3\n");
}

#[test]
fn a_longer_buffer_keeps_its_rest(rt: HostRuntime) {
    let sheet = one_wire();
    let mut buffer = [b'.'; 16];
    assert_eq!(rt; listed(list(&sheet, &mut buffer)), Ok(13));
    assert_eq!(rt; buffer, *b"s 12\nf 1 2 3\n...");
}

#[test]
fn a_buffer_one_byte_short_stays_as_it_was(rt: HostRuntime) {
    let sheet = one_wire();
    let mut buffer = [b'.'; 12];
    assert_eq!(rt; listed(list(&sheet, &mut buffer)), Err((31, 0)));
    assert_eq!(rt; buffer, [b'.'; 12]);
}

#[test]
fn an_open_sheet_is_not_listed(rt: HostRuntime) {
    let mut sheet = one_wire();
    assert_eq!(rt; told(sheet.alter(1, 4)), Ok(()));
    let mut buffer = [b'.'; 16];
    assert_eq!(rt; listed(list(&sheet, &mut buffer)), Err((7, 0)));
    assert_eq!(rt; listed(list(&sheet, &mut [])), Err((7, 0)));
    assert_eq!(rt; buffer, [b'.'; 16]);
}

#[test]
fn an_empty_plan_lists_its_area(rt: HostRuntime) {
    let mut sheet = Sheet::open(Plane);
    assert_eq!(rt; told(sheet.plan()), Ok(()));
    let mut buffer = [b'.'; 4];
    assert_eq!(rt; listed(list(&sheet, &mut buffer)), Ok(4));
    assert_eq!(rt; buffer, *b"s 0\n");
}

#[test]
fn wires_are_listed_in_wire_order(rt: HostRuntime) {
    let mut sheet = Sheet::open(Plane);
    assert_eq!(rt; told(sheet.seat(64, Plane::site(0, 1), -1)), Ok(()));
    assert_eq!(rt; told(sheet.seat(10, Plane::site(0, 0), 1_000_000)), Ok(()));
    assert_eq!(rt; told(sheet.seat(20, Plane::site(7, 0), -999_999)), Ok(()));
    assert_eq!(rt; told(sheet.plan()), Ok(()));
    let mut buffer = [b'.'; 36];
    assert_eq!(rt; listed(list(&sheet, &mut buffer)), Ok(35));
    assert_eq!(rt; buffer, *b"s 6999994\nf 10 20 999999\nf 10 64 1\n.");
}
