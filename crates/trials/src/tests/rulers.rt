// Worked lengths, and every refusal once.
use ruler::derated::Derated;
use ruler::factor::Factor;
use ruler::map::{Map, Step, charted};
use ruler::plane::Plane;
use ruler::refusal::Refusal;
use ruler::ruler::Ruler;
use ruler::stack::Stack;
use std::test::Fail;

#[test]
fn the_plane_measures(rt: HostRuntime) {
    assert_eq!(rt; Plane.length(Plane::site(2, 3), Plane::site(7, 1)), Some(7));
}

#[test]
fn the_stack_climbs(rt: HostRuntime) -> Result<(), Fail> {
    let stack = Stack::new(10)?;
    let start = Stack::site(1, 5, 5).ok_or("absent")?;
    let end = Stack::site(3, 5, 9).ok_or("absent")?;
    assert_eq!(rt; stack.length(start, end), Some(24));
    Ok(())
}

#[test]
fn the_map_has_two_directions(rt: HostRuntime) -> Result<(), Fail> {
    let mut map = Map::empty();
    assert_eq!(rt; map.known(1), false);
    map.begin(2, 50)?;
    map.leg(1, 2, 7)?;
    assert_eq!(rt; map.length(1, 2), Some(7));
    assert_eq!(rt; map.length(2, 1), Some(50));
    assert_eq!(rt; map.length(1, 3), None);
    Ok(())
}

// Begun twice, so that the first leg is gone; the last leg leads to a site that the map does not know.
#[test]
fn a_run_keeps_what_was_begun_last(rt: HostRuntime) {
    let steps = [
        Step::Begin { sites: 3, ring: 9 },
        Step::Leg {
            from: 1,
            to: 2,
            length: 1,
        },
        Step::Begin { sites: 3, ring: 50 },
        Step::Leg {
            from: 2,
            to: 3,
            length: 4,
        },
        Step::Leg {
            from: 3,
            to: 1,
            length: 5,
        },
        Step::Leg {
            from: 1,
            to: 4,
            length: 0,
        },
    ];
    let map = charted(&steps);
    assert_eq!(rt; map.length(2, 1), Some(9));
    assert_eq!(rt; map.length(1, 2), Some(50));
    assert_eq!(rt; map.length(1, 4), None);
}

#[test]
fn derated_lengths_have_a_ceiling(rt: HostRuntime) -> Result<(), Fail> {
    let mut map = Map::empty();
    map.begin(2, 4_000_000)?;
    map.leg(1, 2, 300_000)?;
    let derated = Derated::over(map, Factor::new(16)?);
    assert_eq!(rt; derated.length(1, 2), Some(4_000_000));
    Ok(())
}

#[test]
fn each_refusal_has_its_number(rt: HostRuntime) -> Result<(), Fail> {
    let mut map = Map::empty();
    assert_eq!(rt; map.begin(65, 50).err(), Some(Refusal::SiteCount));
    assert_eq!(rt; map.begin(2, 0).err(), Some(Refusal::RingOutOfRange));
    assert_eq!(rt; map.leg(1, 1, 5).err(), Some(Refusal::LegSite));
    map.begin(2, 50)?;
    assert_eq!(rt; map.leg(1, 2, 4_000_001).err(), Some(Refusal::LegTooLong));
    assert_eq!(rt; Refusal::SiteCount.number(), 16);
    assert_eq!(rt; Refusal::LegTooLong.place(), 0);
    assert!(rt; Factor::new(0).is_err());
    assert!(rt; Stack::new(1_001).is_err());
    Ok(())
}
