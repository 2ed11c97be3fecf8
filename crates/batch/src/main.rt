// Plans nets from standard input and prints a line for each: its area, or why it was refused.
#![tactic(auto)]

use audit::refusal::Refusal;
use ruler::plane::Plane;
use sheet::sheet::Sheet;
use std::alloc::{AllocError, Global};
use std::str::SplitAsciiWhitespace;
use std::time::Instant;
use std::{env, io};

// Nets from text: the number of pins, then x, y and current of each, all as words between blanks.

#[derive(Clone, Copy)]
struct Pin {
    x: u16,
    y: u16,
    current: i32,
}

fn read_pin(words: &mut SplitAsciiWhitespace) -> Option<Pin> {
    Some(Pin {
        x: words.next()?.parse::<u16>().ok()?,
        y: words.next()?.parse::<u16>().ok()?,
        current: words.next()?.parse::<i32>().ok()?,
    })
}

// The pins of a net, absent where the text is malformed.
fn read_net(
    heap: Global,
    count: &str,
    words: &mut SplitAsciiWhitespace,
) -> Result<Option<Vec<Pin>>, AllocError> {
    let Some(count) = count.parse::<usize>().ok().filter(|count| *count <= 64) else {
        return Ok(None);
    };
    let mut pins = Vec::new(heap);
    for _ in 0..count {
        let Some(pin) = read_pin(words) else {
            return Ok(None);
        };
        pins.push(pin)?;
    }
    Ok(Some(pins))
}

#[derive(Clone, Copy)]
enum End {
    Text,
    Malformed,
}

// The nets up to the end of the text, or up to the first that is malformed. That one is told beside them, since an
// entry that may be absent takes a third more memory.
#[derive(Drop)]
struct Batch {
    nets: Vec<Vec<Pin>>,
    end: End,
}

fn read_nets(heap: Global, text: &str) -> Result<Batch, AllocError> {
    let mut words = text.split_ascii_whitespace();
    let mut nets = Vec::new(heap);
    // No text has more nets than bytes, and a loop of a program has to end.
    for _ in 0..text.len() {
        let Some(count) = words.next() else {
            break;
        };
        let Some(net) = read_net(heap, count, &mut words)? else {
            return Ok(Batch {
                nets,
                end: End::Malformed,
            });
        };
        nets.push(net)?;
    }
    Ok(Batch {
        nets,
        end: End::Text,
    })
}

// A net's sheet, its plan and its area.

// The pins under ids 1, 2 and on, not planned yet.
fn seated(pins: &[Pin]) -> Result<Sheet<Plane>, Refusal> {
    let mut sheet = Sheet::open(Plane);
    for (id, pin) in (1..).zip(pins) {
        sheet.seat(id, Plane::site(pin.x, pin.y), pin.current)?;
    }
    Ok(sheet)
}

fn area_of(pins: &[Pin]) -> Result<u64, Refusal> {
    let mut sheet = seated(pins)?;
    sheet.plan()?;
    sheet.area()
}

// A line for each net.
fn print_areas(rt: &HostRuntime, batch: &Batch) -> io::Result<()> {
    for pins in &batch.nets {
        match area_of(pins.as_slice()) {
            Ok(area) => println!(rt; "{area}")?,
            Err(refusal) => println!(rt; "{refusal}")?,
        }
    }
    match batch.end {
        End::Text => Ok(()),
        End::Malformed => println!(rt; "malformed"),
    }
}

// How long planning takes: every net is planned again and again, and the time goes to standard error.

// Plans the sheet anew: to alter a pin to the current that it has opens the sheet.
fn plan_anew(sheet: &mut Sheet<Plane>, current: i32) -> bool {
    sheet.alter(1, current).is_ok() && sheet.plan().is_ok()
}

// Plans a sheet a number of times; how many of them were not refused.
fn plan_often(sheet: &mut Sheet<Plane>, current: i32, rounds: u32) -> u64 {
    let mut plans = 0u64;
    for _ in 0..rounds {
        if plan_anew(sheet, current) {
            plans = plans.saturating_add(1);
        }
    }
    plans
}

// Nets without pins and nets that are refused are left out.
fn report(rt: &HostRuntime, nets: &[Vec<Pin>], rounds: u32) -> io::Result<()> {
    let mut nanos = 0u128;
    let mut plans = 0u64;
    for pins in nets {
        let Some(first) = pins.first() else {
            continue;
        };
        let Ok(mut sheet) = seated(pins.as_slice()) else {
            continue;
        };
        let start = Instant::now(rt)?;
        plans = plans.saturating_add(plan_often(&mut sheet, first.current, rounds));
        nanos = nanos.saturating_add(start.elapsed(rt)?.as_nanos());
    }
    let micros = nanos / 1_000;
    eprintln!(rt; "{micros} microseconds, {plans} plans")
}

// The number of rounds that the arguments `time R` ask for.
// It stands in `lengths` too: no clause can say what a program's arguments are, so no library's call could answer this.
fn rounds_asked(rt: &HostRuntime) -> io::Result<Option<u32>> {
    let mut args = env::args(rt)?.skip(1);
    let Some(word) = args.next() else {
        return Ok(None);
    };
    let Some(rounds) = args.next() else {
        return Ok(None);
    };
    if word.as_str() != "time" {
        return Ok(None);
    }
    Ok(
        rounds
            .as_str()
            .parse::<u32>()
            .ok()
            .filter(|rounds| *rounds > 0),
    )
}

// An input that is no text is malformed from its start.
fn read_input(rt: &HostRuntime, heap: Global) -> Result<Batch, AllocError> {
    match io::read_to_string(heap, rt.stdin()) {
        Ok(text) => read_nets(heap, text.as_str()),
        Err(_) => Ok(Batch {
            nets: Vec::new(heap),
            end: End::Malformed,
        }),
    }
}

fn main(rt: HostRuntime) -> io::Result<()> {
    let rounds = rounds_asked(&rt)?;
    let batch = read_input(&rt, rt.alloc())?;
    print_areas(&rt, &batch)?;
    if let Some(rounds) = rounds {
        report(&rt, batch.nets.as_slice(), rounds)?;
    }
    Ok(())
}
