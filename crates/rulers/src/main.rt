// One net planned over each ruler, through the same calls.
#![tactic(auto)]

use ruler::derated::Derated;
use ruler::factor::Factor;
use ruler::map::Map;
use ruler::plane::Plane;
use ruler::refusal::Refusal;
use ruler::ruler::Ruler;
use ruler::stack::Stack;
use sheet::call::{Answer, Call};
use sheet::run::{follow, perform};
use sheet::sheet::Sheet;
use std::io;

mod nets;

fn show(rt: &HostRuntime, answer: Answer) -> io::Result<()> {
    match answer {
        Answer::Done => print!(rt; " done"),
        Answer::Area(area) => print!(rt; " area {area}"),
        Answer::Wire(Some((from, to, current))) => print!(rt; ", {from} to {to} carries {current}"),
        Answer::Wire(None) => Ok(()),
        Answer::Mark(mark) => print!(rt; " mark {mark}"),
        Answer::Refused(refusal) => print!(rt; " {refusal}"),
    }
}

// The area and the wires of the plan that the calls come to over the ruler.
fn plan_over<R: Ruler + Drop>(rt: &HostRuntime, ruler: R, calls: &[Call]) -> io::Result<()> {
    let mut sheet = follow(ruler, calls);
    for call in &nets::SHOWN {
        show(rt, perform(&mut sheet, call))?;
    }
    println!(rt; "")
}

// Plans over a ruler, and over the same ruler derated.
fn plan_twice<R: Ruler + Copy + Drop>(
    rt: &HostRuntime,
    name: &str,
    ruler: R,
    times: u32,
    calls: &[Call],
) -> io::Result<()> {
    print!(rt; "{name}:")?;
    plan_over(rt, ruler, calls)?;
    let Ok(factor) = Factor::new(times) else {
        return println!(rt; "no factor");
    };
    print!(rt; "{name} derated by {times}:")?;
    plan_over(rt, Derated::over(ruler, factor), calls)
}

// Four sites with four legs, and a ring that none of them needs.
fn legs() -> Result<Map, Refusal> {
    let mut map = Map::empty();
    map.begin(4, 4_000_000)?;
    map.leg(1, 3, 2)?;
    map.leg(2, 3, 1)?;
    map.leg(3, 4, 2)?;
    map.leg(2, 4, 2)?;
    Ok(map)
}

fn main(rt: HostRuntime) -> io::Result<()> {
    let Ok(stack) = Stack::new(10) else {
        return println!(rt; "no stack");
    };
    let Ok(map) = legs() else {
        return println!(rt; "no map");
    };
    plan_twice(&rt, "plane", Plane, 3, &nets::LINE)?;
    plan_twice(&rt, "stack", stack, 16, &nets::LAYERS)?;
    plan_twice(&rt, "map", map, 2, &nets::SITES)
}
