// What calls come to, with the numbers of their refusals.
use audit::refusal::Refusal;
use reader::refusal::Refusal as FileRefusal;
use wires::wire::Wire;

mod audits;
mod edits;
mod files;
mod hard;
mod listings;
mod loads;
mod plans;
mod rulers;
mod transports;

// An answer, or a refusal's number and place.
fn told<T>(answer: Result<T, Refusal>) -> Result<T, (u32, u32)> {
    answer.map_err(|refusal| (refusal.number(), refusal.place()))
}

// Of a load: done, or a refusal's number, line, word and place.
fn read(answer: Result<(), FileRefusal>) -> Result<(), (u32, usize, usize, u32)> {
    answer.map_err(|refusal| {
        (
            refusal.number(),
            refusal.line,
            refusal.word,
            refusal.place(),
        )
    })
}

// The marks of ids 1 to 4, all others 0.
fn marked(marks: [u32; 4]) -> [u32; 64] {
    let mut table = [0; 64];
    table[..4].copy_from_slice(&marks);
    table
}

fn wire(start: u32, end: u32, current: u32) -> Wire {
    Wire {
        start,
        end,
        current,
    }
}
