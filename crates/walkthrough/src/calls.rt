// The run of the walkthrough. On the plane a site is 65,536 × y + x, so (4,0) is site 4.
use sheet::call::Call;
use wires::wire::Wire;

// Each source to the sink that is nearest and still free.
pub static NEAREST: [Wire; 2] = [
    Wire {
        start: 4,
        end: 6,
        current: 1,
    },
    Wire {
        start: 10,
        end: 0,
        current: 1,
    },
];

pub static AREA: [Call<'static>; 1] = [Call::Area];

pub static WIRES: [Call<'static>; 3] = [
    Call::Wire { number: 0 },
    Call::Wire { number: 1 },
    Call::Wire { number: 2 },
];

pub static MARKS: [Call<'static>; 4] = [
    Call::Mark { id: 1 },
    Call::Mark { id: 2 },
    Call::Mark { id: 3 },
    Call::Mark { id: 4 },
];

pub static RUN: [Call<'static>; 44] = [
    // four pins, planned
    Call::Seat {
        id: 1,
        site: 4,
        current: 1,
    },
    Call::Seat {
        id: 2,
        site: 10,
        current: 1,
    },
    Call::Seat {
        id: 3,
        site: 6,
        current: -1,
    },
    Call::Seat {
        id: 4,
        site: 0,
        current: -1,
    },
    Call::Area,
    Call::Plan,
    Call::Plan,
    Call::Area,
    Call::Wire { number: 0 },
    Call::Wire { number: 1 },
    Call::Wire { number: 2 },
    Call::Mark { id: 1 },
    Call::Mark { id: 2 },
    Call::Mark { id: 3 },
    Call::Mark { id: 4 },
    // a pin moves
    Call::Move { id: 4, site: 1 },
    Call::Area,
    Call::Wire { number: 0 },
    Call::Mark { id: 1 },
    Call::Plan,
    Call::Area,
    Call::Wire { number: 0 },
    Call::Wire { number: 1 },
    Call::Wire { number: 2 },
    Call::Mark { id: 4 },
    // currents change, two pins go
    Call::Alter { id: 2, current: 2 },
    Call::Plan,
    Call::Alter { id: 3, current: -2 },
    Call::Plan,
    Call::Area,
    Call::Lift { id: 1 },
    Call::Lift { id: 4 },
    Call::Plan,
    Call::Area,
    Call::Wire { number: 0 },
    Call::Wire { number: 1 },
    // refused, so nothing changes
    Call::Seat {
        id: 65,
        site: 196_611,
        current: 1,
    },
    Call::Seat {
        id: 2,
        site: 196_611,
        current: 1,
    },
    Call::Move {
        id: 1,
        site: 196_611,
    },
    Call::Alter { id: 3, current: 0 },
    Call::Lift { id: 0 },
    Call::Mark { id: 65 },
    Call::Mark { id: 1 },
    Call::Area,
];
