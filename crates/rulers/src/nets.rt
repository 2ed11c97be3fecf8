// The nets, each with its plan as the last call.
use sheet::call::Call;

pub static SHOWN: [Call<'static>; 4] = [
    Call::Area,
    Call::Wire { number: 0 },
    Call::Wire { number: 1 },
    Call::Wire { number: 2 },
];

// Four pins on the plane, at (4,0), (10,0), (6,0) and (0,0).
pub static LINE: [Call<'static>; 5] = [
    Call::Seat {
        id: 1,
        site: 4,
        current: 1,
    },
    Call::Seat {
        id: 2,
        site: 10,
        current: 1,
    },
    Call::Seat {
        id: 3,
        site: 6,
        current: -1,
    },
    Call::Seat {
        id: 4,
        site: 0,
        current: -1,
    },
    Call::Plan,
];

// From layer 1 at (5,5) to layer 3 at (5,9).
pub static LAYERS: [Call<'static>; 3] = [
    Call::Seat {
        id: 1,
        site: 268_517_381,
        current: 1,
    },
    Call::Seat {
        id: 2,
        site: 805_453_829,
        current: -1,
    },
    Call::Plan,
];

pub static SITES: [Call<'static>; 5] = [
    Call::Seat {
        id: 1,
        site: 1,
        current: 3,
    },
    Call::Seat {
        id: 2,
        site: 2,
        current: 2,
    },
    Call::Seat {
        id: 3,
        site: 3,
        current: -4,
    },
    Call::Seat {
        id: 4,
        site: 4,
        current: -1,
    },
    Call::Plan,
];
