// The calls on a sheet as values, so that a contract can speak of every run of them, and what each of them answers.
use audit::refusal::Refusal;
use wires::wire::Wire;

#[derive(Clone, Copy)]
pub enum Call<'a> {
    Seat { id: u32, site: u32, current: i32 },
    Move { id: u32, site: u32 },
    Alter { id: u32, current: i32 },
    Lift { id: u32 },
    Plan,
    Audit { wires: &'a [Wire], marks: &'a [u32] },
    Area,
    Wire { number: u32 },
    Mark { id: u32 },
}

#[derive(Clone, Copy, PartialEq, Eq, Debug)]
pub enum Answer {
    Done,
    Area(u64),
    // A planned wire: from id, to id, current, as the sheet's own call hands it out.
    Wire(Option<(u32, u32, u32)>),
    Mark(u32),
    // To perform a call does not fail: a refusal is one of the answers.
    Refused(Refusal),
}
