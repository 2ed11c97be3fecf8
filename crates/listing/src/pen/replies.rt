// The answer to a whole file: the listing of its plan, or `c refused NUMBER LINE WORD`.
ghost use Rattle.std.specs.Prelude.{◌≡◌, ◌+◌, ◌≤◌, length, IfOk};
ghost use Rattle.listing.specs.Files.{Replied, refusal_text};
ghost use Rattle.listing.specs.Listing.{Put, filled, fitted};
ghost use Rattle.listing.specs.Pens.{HasRoom, Writes};

use crate::pen::lines::list;
use crate::pen::{Pen, digits_of};
use crate::planning::plan_file;
use crate::refusal::Refusal;
use reader::refusal::Refusal as FileRefusal;

// The words `c` and `refused` take ten bytes with their spaces, and each number is followed by one more.
fn refusal_length(refusal: &FileRefusal) -> usize
    ensures { result ≡ length (refusal_text refusal.now) }
{
    let number = digits_of(u64::from(refusal.number()));
    let line = digits_of(refusal.line as u64);
    let word = digits_of(refusal.word as u64);
    13 + number + line + word
}

impl<'a> Pen<'a> {
    fn put_refusal(&mut self, refusal: &FileRefusal)
        requires { HasRoom self.old (refusal_text refusal.now) }
        ensures { Writes self.old self.new (refusal_text refusal.now) }
    {
        self.put(b"c refused ");
        self.put_word(u64::from(refusal.number()), b' ');
        self.put_word(refusal.line as u64, b' ');
        self.put_last(refusal.word as u64);
    }
}

// Writes the refusal at the start of a buffer, and answers how many bytes it takes.
fn write_refusal(refusal: &FileRefusal, buffer: &mut [u8]) -> usize
    requires { length (refusal_text refusal.now) ≤ length buffer.old }
    ensures { Put buffer.old 0 (refusal_text refusal.now) buffer.new result }
{
    let mut pen = Pen { out: buffer, at: 0 };
    pen.put_refusal(refusal);
    pen.at
}

fn list_refusal(refusal: &FileRefusal, buffer: &mut [u8]) -> Result<usize, Refusal>
    ensures count { result ≡ fitted (refusal_text refusal.now) (length buffer.old) }
    ensures holds { buffer.new ≡ filled (refusal_text refusal.now) buffer.old }
{
    if refusal_length(refusal) > buffer.len() {
        return Err(Refusal::TextTooLong);
    }
    Ok(write_refusal(refusal, buffer))
}

// Answers a file in a buffer, and says how many bytes the answer takes.
pub fn answer(file: &[u8], buffer: &mut [u8]) -> Result<usize, Refusal>
    ensures reply { Replied file.now buffer.old result buffer.new }
    ensures within { IfOk result (λ n. n ≤ length buffer.old) }
{
    match plan_file(file) {
        Ok(sheet) => list(&sheet, buffer),
        Err(refusal) => list_refusal(&refusal, buffer),
    }
}
