// Seat, move, alter and lift: their refusals, the bounds, and the order of the questions.
use crate::strip::Strip;
use crate::tests::told;
use sheet::sheet::Sheet;

#[test]
fn ids_run_from_1_to_64(rt: HostRuntime) {
    let mut sheet = Sheet::open(Strip);
    assert_eq!(rt; told(sheet.seat(0, 5, 7)), Err((1, 0)));
    assert_eq!(rt; told(sheet.seat(65, 5, 7)), Err((1, 65)));
    assert_eq!(rt;
        told(sheet.seat(4_294_967_295, 5, 7)),
        Err((1, 4_294_967_295))
    );
    assert_eq!(rt; told(sheet.seat(1, 5, 7)), Ok(()));
    assert_eq!(rt; told(sheet.seat(64, 5, 7)), Ok(()));
    assert_eq!(rt; told(sheet.move_to(65, 5)), Err((1, 65)));
    assert_eq!(rt; told(sheet.alter(65, 5)), Err((1, 65)));
    assert_eq!(rt; told(sheet.lift(65)), Err((1, 65)));
}

#[test]
fn a_seated_id_is_taken_and_a_lifted_one_free(rt: HostRuntime) {
    let mut sheet = Sheet::open(Strip);
    assert_eq!(rt; told(sheet.move_to(9, 5)), Err((3, 9)));
    assert_eq!(rt; told(sheet.alter(9, 5)), Err((3, 9)));
    assert_eq!(rt; told(sheet.lift(9)), Err((3, 9)));
    assert_eq!(rt; told(sheet.seat(9, 5, 7)), Ok(()));
    assert_eq!(rt; told(sheet.seat(9, 6, 8)), Err((2, 9)));
    assert_eq!(rt; told(sheet.lift(9)), Ok(()));
    assert_eq!(rt; told(sheet.lift(9)), Err((3, 9)));
    assert_eq!(rt; told(sheet.seat(9, 6, 8)), Ok(()));
}

#[test]
fn currents_reach_a_million_either_way(rt: HostRuntime) {
    let mut sheet = Sheet::open(Strip);
    assert_eq!(rt; told(sheet.seat(1, 5, 1_000_000)), Ok(()));
    assert_eq!(rt; told(sheet.seat(2, 5, -1_000_000)), Ok(()));
    assert_eq!(rt; told(sheet.seat(3, 5, 1_000_001)), Err((4, 3)));
    assert_eq!(rt; told(sheet.seat(3, 5, -1_000_001)), Err((4, 3)));
    assert_eq!(rt; told(sheet.seat(3, 5, 0)), Err((4, 3)));
    assert_eq!(rt; told(sheet.alter(1, 0)), Err((4, 1)));
    assert_eq!(rt; told(sheet.alter(1, 2_147_483_647)), Err((4, 1)));
    assert_eq!(rt; told(sheet.alter(1, -2_147_483_648)), Err((4, 1)));
    assert_eq!(rt; told(sheet.alter(1, -1)), Ok(()));
}

#[test]
fn sites_must_be_known(rt: HostRuntime) {
    let mut sheet = Sheet::open(Strip);
    assert_eq!(rt; told(sheet.seat(1, 99, 1)), Ok(()));
    assert_eq!(rt; told(sheet.seat(2, 100, 1)), Err((5, 2)));
    assert_eq!(rt; told(sheet.move_to(1, 100)), Err((5, 1)));
    assert_eq!(rt; told(sheet.move_to(1, 0)), Ok(()));
}

#[test]
fn the_first_no_decides(rt: HostRuntime) {
    let mut sheet = Sheet::open(Strip);
    assert_eq!(rt; told(sheet.seat(65, 100, 0)), Err((1, 65)));
    assert_eq!(rt; told(sheet.seat(1, 100, 0)), Err((4, 1)));
    assert_eq!(rt; told(sheet.seat(1, 1, 1)), Ok(()));
    assert_eq!(rt; told(sheet.seat(1, 100, 0)), Err((2, 1)));
    assert_eq!(rt; told(sheet.move_to(2, 100)), Err((3, 2)));
    assert_eq!(rt; told(sheet.alter(2, 0)), Err((3, 2)));
    assert_eq!(rt; told(sheet.alter(0, 0)), Err((1, 0)));
}
