// Audits: worked nets, each refusal with its place, and the order of the questions.
use crate::strip::Strip;
use crate::tests::{marked, told, wire};
use ruler::plane::Plane;
use sheet::sheet::Sheet;

// A source of 3 at site 0, a sink of 3 at site 4.
fn one_wire() -> Sheet<Strip> {
    let mut sheet = Sheet::open(Strip);
    let _ = sheet.seat(1, 0, 3);
    let _ = sheet.seat(2, 4, -3);
    sheet
}

#[test]
fn one_source_and_one_sink(rt: HostRuntime) {
    let mut sheet = Sheet::open(Plane);
    assert_eq!(rt; told(sheet.seat(1, Plane::site(0, 0), 3)), Ok(()));
    assert_eq!(rt; told(sheet.seat(2, Plane::site(4, 0), -3)), Ok(()));
    let list = [wire(Plane::site(0, 0), Plane::site(4, 0), 3)];
    assert_eq!(rt; told(sheet.audit(&list, &marked([0, 4, 0, 0]))), Ok(12));
    let around = [wire(0, 65_536, 3), wire(65_536, 4, 3)];
    assert_eq!(rt;
        told(sheet.audit(&around, &marked([0, 4, 0, 0]))),
        Err((15, 0))
    );
}

#[test]
fn two_terminals_on_one_site_need_no_wire(rt: HostRuntime) {
    let mut sheet = Sheet::open(Plane);
    assert_eq!(rt; told(sheet.seat(1, Plane::site(1, 1), 5)), Ok(()));
    assert_eq!(rt; told(sheet.seat(2, Plane::site(1, 1), -5)), Ok(()));
    assert_eq!(rt; told(sheet.audit(&[], &marked([0, 0, 0, 0]))), Ok(0));
    let loops = [wire(65_537, 65_537, 5)];
    assert_eq!(rt; told(sheet.audit(&loops, &marked([3, 3, 0, 0]))), Ok(0));
}

#[test]
fn terminals_are_met_by_site(rt: HostRuntime) {
    let mut sheet = Sheet::open(Strip);
    assert_eq!(rt; told(sheet.seat(1, 5, 2)), Ok(()));
    assert_eq!(rt; told(sheet.seat(2, 5, -1)), Ok(()));
    assert_eq!(rt; told(sheet.seat(3, 7, -1)), Ok(()));
    let list = [wire(5, 7, 1)];
    assert_eq!(rt; told(sheet.audit(&list, &marked([0, 0, 2, 0]))), Ok(2));
}

#[test]
fn tables_and_lists_have_their_size(rt: HostRuntime) {
    let sheet = one_wire();
    let long = [wire(0, 4, 3); 1_025];
    assert_eq!(rt; told(sheet.audit(&long, &[0; 63])), Err((8, 0)));
    assert_eq!(rt; told(sheet.audit(&long, &[0; 65])), Err((8, 0)));
    assert_eq!(rt; told(sheet.audit(&long, &[])), Err((8, 0)));
    assert_eq!(rt;
        told(sheet.audit(&long, &marked([0, 4, 0, 0]))),
        Err((9, 0))
    );
    let full = [wire(0, 4, 3); 1_024];
    assert_eq!(rt;
        told(sheet.audit(&full, &marked([0, 4, 0, 0]))),
        Err((13, 0))
    );
}

#[test]
fn wires_are_in_range_and_known(rt: HostRuntime) {
    let sheet = one_wire();
    let marks = marked([0, 4, 0, 0]);
    assert_eq!(rt;
        told(sheet.audit(&[wire(0, 4, 3), wire(4, 4, 0)], &marks)),
        Err((10, 1))
    );
    assert_eq!(rt;
        told(sheet.audit(&[wire(4, 4, 32_000_001), wire(0, 4, 3)], &marks)),
        Err((10, 0))
    );
    assert_eq!(rt;
        told(sheet.audit(&[wire(4, 4, 32_000_000), wire(0, 4, 3)], &marks)),
        Ok(12)
    );
    assert_eq!(rt;
        told(sheet.audit(&[wire(0, 4, 3), wire(4, 100, 1)], &marks)),
        Err((11, 1))
    );
    assert_eq!(rt;
        told(sheet.audit(&[wire(100, 4, 3), wire(4, 100, 1)], &marks)),
        Err((11, 0))
    );
    assert_eq!(rt;
        told(sheet.audit(&[wire(100, 4, 3), wire(4, 4, 0)], &marks)),
        Err((10, 1))
    );
}

#[test]
fn marks_are_in_range(rt: HostRuntime) {
    let sheet = one_wire();
    let list = [wire(0, 4, 3)];
    assert_eq!(rt;
        told(sheet.audit(&list, &marked([3_999_996, 4_000_000, 0, 0]))),
        Ok(12)
    );
    assert_eq!(rt;
        told(sheet.audit(&list, &marked([3_999_997, 4_000_001, 0, 0]))),
        Err((12, 2))
    );
    assert_eq!(rt;
        told(sheet.audit(&list, &marked([0, 4, 0, 1]))),
        Err((12, 4))
    );
    assert_eq!(rt;
        told(sheet.audit(&[], &marked([4_000_001, 4, 1, 0]))),
        Err((12, 1))
    );
}

#[test]
fn the_smallest_site_that_fails_is_named(rt: HostRuntime) {
    let sheet = one_wire();
    let marks = marked([0, 4, 0, 0]);
    assert_eq!(rt; told(sheet.audit(&[], &marks)), Err((13, 0)));
    assert_eq!(rt;
        told(sheet.audit(&[wire(9, 7, 1), wire(0, 4, 3)], &marks)),
        Err((13, 7))
    );
    assert_eq!(rt; told(sheet.audit(&[wire(0, 4, 2)], &marks)), Err((13, 0)));
    assert_eq!(rt; told(sheet.audit(&[wire(0, 3, 3)], &marks)), Err((13, 3)));
}

#[test]
fn marks_rise_by_no_more_than_the_length(rt: HostRuntime) {
    let sheet = one_wire();
    let list = [wire(0, 4, 3)];
    assert_eq!(rt;
        told(sheet.audit(&list, &marked([0, 5, 0, 0]))),
        Err((14, 1))
    );
    assert_eq!(rt;
        told(sheet.audit(&list, &marked([9, 4, 0, 0]))),
        Err((14, 2))
    );
    assert_eq!(rt; told(sheet.audit(&[], &marked([0, 5, 0, 0]))), Err((13, 0)));
    assert_eq!(rt;
        told(sheet.audit(&list, &marked([0, 3, 0, 0]))),
        Err((15, 0))
    );
}

#[test]
fn an_edit_changes_what_is_audited(rt: HostRuntime) {
    let mut sheet = one_wire();
    assert_eq!(rt; told(sheet.move_to(2, 6)), Ok(()));
    assert_eq!(rt;
        told(sheet.audit(&[wire(0, 6, 3)], &marked([0, 6, 0, 0]))),
        Ok(18)
    );
    assert_eq!(rt; told(sheet.lift(1)), Ok(()));
    assert_eq!(rt;
        told(sheet.audit(&[wire(0, 6, 3)], &marked([0, 6, 0, 0]))),
        Err((13, 0))
    );
}
