// One net from its first pin to its last plan, every call made by `perform` and printed with its answer.
#![tactic(auto)]

use ruler::plane::Plane;
use sheet::call::{Answer, Call};
use sheet::run::{follow, perform};
use sheet::sheet::Sheet;
use std::fmt::Display;
use std::{fmt, io};
use wires::wire::Wire;

mod calls;

// A site of the plane, shown as its point.
#[derive(Clone, Copy)]
struct Point(u32);

impl Display for Point {
    fn fmt<W: fmt::Write>(&self, f: &mut fmt::Formatter<W>) -> fmt::Result {
        write!(f, "({},{})", self.0 % 65_536, self.0 / 65_536)
    }
}

fn show_list(rt: &HostRuntime, wires: &[Wire]) -> io::Result<()> {
    for wire in wires {
        print!(rt;
            " {} to {} carries {},",
            Point(wire.start),
            Point(wire.end),
            wire.current
        )?;
    }
    Ok(())
}

// The marks of the ids that the net uses.
fn show_marks(rt: &HostRuntime, marks: &[u32]) -> io::Result<()> {
    print!(rt; " marks")?;
    for mark in marks.iter().take(4) {
        print!(rt; " {mark}")?;
    }
    Ok(())
}

fn show_call(rt: &HostRuntime, call: &Call) -> io::Result<()> {
    match *call {
        Call::Seat { id, site, current } => print!(rt;
            "seat {id} with {current} at {}",
            Point(site)
        ),
        Call::Move { id, site } => print!(rt; "move {id} to {}", Point(site)),
        Call::Alter { id, current } => print!(rt; "alter {id} to {current}"),
        Call::Lift { id } => print!(rt; "lift {id}"),
        Call::Plan => print!(rt; "plan"),
        Call::Audit { wires, marks } => {
            print!(rt; "audit")?;
            show_list(rt, wires)?;
            show_marks(rt, marks)
        }
        Call::Area => print!(rt; "area"),
        Call::Wire { number } => print!(rt; "wire {number}"),
        Call::Mark { id } => print!(rt; "mark {id}"),
    }
}

fn show_answer(rt: &HostRuntime, answer: Answer) -> io::Result<()> {
    match answer {
        Answer::Done => println!(rt; ": done"),
        Answer::Area(area) => println!(rt; ": area {area}"),
        Answer::Wire(Some((from, to, current))) => println!(rt;
            ": from {from} to {to} carries {current}"
        ),
        Answer::Wire(None) => println!(rt; ": absent"),
        Answer::Mark(mark) => println!(rt; ": {mark}"),
        Answer::Refused(refusal) => println!(rt; ": {refusal}, place {}", refusal.place()),
    }
}

// Makes the calls, and prints each with its answer.
fn act(rt: &HostRuntime, sheet: &mut Sheet<Plane>, calls: &[Call]) -> io::Result<()> {
    for call in calls {
        show_call(rt, call)?;
        show_answer(rt, perform(sheet, call))?;
    }
    Ok(())
}

// Files a list of wires with the marks of ids 1 to 4, all others 0.
fn file(
    rt: &HostRuntime,
    sheet: &mut Sheet<Plane>,
    wires: &[Wire],
    marks: [u32; 4],
) -> io::Result<()> {
    let mut table = [0; 64];
    table[..4].copy_from_slice(&marks);
    let call = Call::Audit {
        wires,
        marks: &table,
    };
    show_call(rt, &call)?;
    show_answer(rt, perform(sheet, &call))
}

// The mark that a call answers.
fn mark_of(sheet: &mut Sheet<Plane>, call: &Call) -> Option<u32> {
    let Answer::Mark(mark) = perform(sheet, call) else {
        return None;
    };
    Some(mark)
}

// The planned wire that a call answers, between the sites of ids 1 to 4.
fn wire_of(sheet: &mut Sheet<Plane>, call: &Call, sites: [u32; 4]) -> Option<Wire> {
    let Answer::Wire(Some((from, to, current))) = perform(sheet, call) else {
        return None;
    };
    if from < 1 || from > 4 || to < 1 || to > 4 {
        return None;
    }
    let start = sites[from as usize - 1];
    let end = sites[to as usize - 1];
    Some(Wire {
        start,
        end,
        current,
    })
}

// Files the sheet's own two wires with its own marks.
fn file_own(rt: &HostRuntime, sheet: &mut Sheet<Plane>, sites: [u32; 4]) -> io::Result<()> {
    let mut marks = [0; 4];
    for (mark, call) in marks.iter_mut().zip(&calls::MARKS) {
        let Some(own) = mark_of(sheet, call) else {
            return println!(rt; "no mark");
        };
        *mark = own;
    }
    let Some(first) = wire_of(sheet, &calls::WIRES[0], sites) else {
        return println!(rt; "no first wire");
    };
    let Some(second) = wire_of(sheet, &calls::WIRES[1], sites) else {
        return println!(rt; "no second wire");
    };
    file(rt, sheet, &[first, second], marks)
}

// Whether two sheets answer the calls alike.
fn alike(a: &mut Sheet<Plane>, b: &mut Sheet<Plane>, calls: &[Call]) -> bool {
    calls
        .iter()
        .all(|call| perform(a, call) == perform(b, call))
}

fn answer_alike(a: &mut Sheet<Plane>, b: &mut Sheet<Plane>) -> bool {
    alike(a, b, &calls::AREA) && alike(a, b, &calls::WIRES) && alike(a, b, &calls::MARKS)
}

fn plan_pins(rt: &HostRuntime, sheet: &mut Sheet<Plane>) -> io::Result<()> {
    println!(rt; "Four pins on a line, planned.")?;
    act(rt, sheet, &calls::RUN[0..15])?;
    println!(rt;
        "The nearest-first plan has area 12, and the marks are worth 8; the sheet's own plan has 8."
    )?;
    file(rt, sheet, &calls::NEAREST, [2, 0, 4, 6])?;
    file_own(rt, sheet, [4, 10, 6, 0])
}

fn move_pin(rt: &HostRuntime, sheet: &mut Sheet<Plane>) -> io::Result<()> {
    println!(rt; "A pin moves: the plan is gone until the sheet is planned again.")?;
    act(rt, sheet, &calls::RUN[15..25])?;
    file_own(rt, sheet, [4, 10, 6, 1])
}

fn main(rt: HostRuntime) -> io::Result<()> {
    let mut sheet = Sheet::open(Plane);
    plan_pins(&rt, &mut sheet)?;
    move_pin(&rt, &mut sheet)?;
    println!(rt; "Currents change, and then two pins go.")?;
    act(&rt, &mut sheet, &calls::RUN[25..36])?;
    println!(rt; "Refused calls change nothing.")?;
    act(&rt, &mut sheet, &calls::RUN[36..44])?;
    println!(rt; "The whole run once more.")?;
    let mut again = follow(Plane, &calls::RUN);
    if answer_alike(&mut sheet, &mut again) {
        println!(rt; "the two sheets answer alike")
    } else {
        println!(rt; "the two sheets differ")
    }
}
