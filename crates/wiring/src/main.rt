// Reads a file in the DIMACS minimum-cost flow layout from standard input, and prints the wires of least metal, or why it
// was refused.
#![tactic(auto)]

use listing::answer;
use std::io;
use std::io::{Read, Write};

// The longest listing has 1,024 wires.
const ROOM: usize = 32_768;

fn main(rt: HostRuntime) -> io::Result<()> {
    let heap = rt.alloc();
    let mut file = Vec::new(heap);
    rt.stdin().read_to_end(&mut file)?;
    let mut text = vec![in heap; 0u8; ROOM]?;
    match answer(file.as_slice(), text.as_mut_slice()) {
        Ok(count) => rt.stdout().write_all(&text[0..count]),
        Err(refusal) => println!(rt; "c {refusal} 0 0"),
    }
}
