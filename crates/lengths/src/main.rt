// Makes maps from standard input and prints the lengths of each: a line for every site, with its length to every site.
#![tactic(auto)]

use ruler::map::{Map, Step, charted};
use ruler::ruler::Ruler;
use std::alloc::{AllocError, Global};
use std::str::SplitAsciiWhitespace;
use std::time::Instant;
use std::{env, io};

// Maps from text: sites, ring and the number of legs, then from, to and length of each, all as words between blanks.

fn next_number(words: &mut SplitAsciiWhitespace) -> Option<u32> {
    words.next()?.parse::<u32>().ok()
}

fn read_leg(words: &mut SplitAsciiWhitespace) -> Option<Step> {
    Some(Step::Leg {
        from: next_number(words)?,
        to: next_number(words)?,
        length: next_number(words)?,
    })
}

// The first step of a map, and how many legs follow.
fn read_head(sites: &str, words: &mut SplitAsciiWhitespace) -> Option<(Step, u32)> {
    let begin = Step::Begin {
        sites: sites.parse::<u32>().ok()?,
        ring: next_number(words)?,
    };
    Some((begin, next_number(words)?))
}

// The steps of a map, absent where the text is malformed.
fn read_map(
    heap: Global,
    sites: &str,
    words: &mut SplitAsciiWhitespace,
) -> Result<Option<Vec<Step>>, AllocError> {
    let Some((begin, legs)) = read_head(sites, words) else {
        return Ok(None);
    };
    let mut steps = Vec::new(heap);
    steps.push(begin)?;
    for _ in 0..legs {
        let Some(leg) = read_leg(words) else {
            return Ok(None);
        };
        steps.push(leg)?;
    }
    Ok(Some(steps))
}

#[derive(Clone, Copy)]
enum End {
    Text,
    Malformed,
}

// The maps up to the end of the text, or up to the first that is malformed. That one is told beside them, as in `batch`.
#[derive(Drop)]
struct Atlas {
    maps: Vec<Vec<Step>>,
    end: End,
}

fn read_maps(heap: Global, text: &str) -> Result<Atlas, AllocError> {
    let mut words = text.split_ascii_whitespace();
    let mut maps = Vec::new(heap);
    // No text has more maps than bytes, and a loop of a program has to end.
    for _ in 0..text.len() {
        let Some(sites) = words.next() else {
            break;
        };
        let Some(map) = read_map(heap, sites, &mut words)? else {
            return Ok(Atlas {
                maps,
                end: End::Malformed,
            });
        };
        maps.push(map)?;
    }
    Ok(Atlas {
        maps,
        end: End::Text,
    })
}

// The lengths of a map; a map whose begin was refused knows no site and has no line.

fn print_line(rt: &HostRuntime, map: &Map, from: u32) -> io::Result<()> {
    let mut blank = "";
    for to in 1..=64 {
        if let Some(length) = map.length(from, to) {
            print!(rt; "{blank}{length}")?;
            blank = " ";
        }
    }
    println!(rt; "")
}

fn print_lengths(rt: &HostRuntime, map: &Map) -> io::Result<()> {
    for from in 1..=64 {
        if map.known(from) {
            print_line(rt, map, from)?;
        }
    }
    Ok(())
}

fn print_maps(rt: &HostRuntime, atlas: &Atlas) -> io::Result<()> {
    for steps in &atlas.maps {
        print_lengths(rt, &charted(steps.as_slice()))?;
    }
    match atlas.end {
        End::Text => Ok(()),
        End::Malformed => println!(rt; "malformed"),
    }
}

// How long a leg takes: every map is made again and again, and the time goes to standard error.

// Makes a map a number of times; the sum of the lengths from site 1 to site 2, so that no map is idle.
fn chart_often(steps: &[Step], rounds: u32) -> u64 {
    let mut sum = 0u64;
    for _ in 0..rounds {
        let length = charted(steps).length(1, 2).unwrap_or(0);
        sum = sum.saturating_add(u64::from(length));
    }
    sum
}

fn report(rt: &HostRuntime, maps: &[Vec<Step>], rounds: u32) -> io::Result<()> {
    let mut nanos = 0u128;
    let mut legs = 0u64;
    let mut sum = 0u64;
    for steps in maps {
        let start = Instant::now(rt)?;
        sum = sum.saturating_add(chart_often(steps.as_slice(), rounds));
        nanos = nanos.saturating_add(start.elapsed(rt)?.as_nanos());
        let laid = (steps.len() as u64).saturating_sub(1);
        legs = legs.saturating_add(laid.saturating_mul(u64::from(rounds)));
    }
    let micros = nanos / 1_000;
    eprintln!(rt; "{micros} microseconds, {legs} legs, sum {sum}")
}

// The number of rounds that the arguments `time R` ask for.
// It stands in `batch` too: no clause can say what a program's arguments are, so no library's call could answer this.
fn rounds_asked(rt: &HostRuntime) -> io::Result<Option<u32>> {
    let mut args = env::args(rt)?.skip(1);
    let Some(word) = args.next() else {
        return Ok(None);
    };
    let Some(rounds) = args.next() else {
        return Ok(None);
    };
    if word.as_str() != "time" {
        return Ok(None);
    }
    Ok(
        rounds
            .as_str()
            .parse::<u32>()
            .ok()
            .filter(|rounds| *rounds > 0),
    )
}

// An input that is no text is malformed from its start.
fn read_input(rt: &HostRuntime, heap: Global) -> Result<Atlas, AllocError> {
    match io::read_to_string(heap, rt.stdin()) {
        Ok(text) => read_maps(heap, text.as_str()),
        Err(_) => Ok(Atlas {
            maps: Vec::new(heap),
            end: End::Malformed,
        }),
    }
}

fn main(rt: HostRuntime) -> io::Result<()> {
    let rounds = rounds_asked(&rt)?;
    let atlas = read_input(&rt, rt.alloc())?;
    print_maps(&rt, &atlas)?;
    if let Some(rounds) = rounds {
        report(&rt, atlas.maps.as_slice(), rounds)?;
    }
    Ok(())
}
