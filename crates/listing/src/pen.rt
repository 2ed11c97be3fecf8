// A pen writes in a lent buffer: each text at its place, which goes on to the next. The place stands beside the whole
// buffer, since what lies past the text is promised to stay as it was.
ghost use Rattle.std.specs.Prelude.{◌≡◌, ◌≤◌, [], ◌∷◌, ◌++◌, length, decimal};
ghost use Rattle.listing.specs.Pens.{HasRoom, Writes};

use itoa::Buffer;

mod lines;
mod replies;

pub use lines::list;
pub use replies::answer;

#[derive(Drop)]
struct Pen<'a> {
    out: &'a mut [u8],
    at: usize,
}

// How many digits a number has.
fn digits_of(number: u64) -> usize
    ensures count { result ≡ length (decimal number) }
    ensures few { result ≤ 20 }
{
    let mut buffer = Buffer::new();
    buffer.format(number).len()
}

impl<'a> Pen<'a> {
    fn put(&mut self, text: &[u8])
        requires { HasRoom self.old text.now }
        ensures { Writes self.old self.new text.now }
    {
        let end = self.at + text.len();
        self.out[self.at..end].copy_from_slice(text);
        self.at = end;
    }

    fn put_number(&mut self, number: u64)
        requires { HasRoom self.old (decimal number) }
        ensures { Writes self.old self.new (decimal number) }
    {
        let mut buffer = Buffer::new();
        self.put(buffer.format(number).as_bytes());
    }

    // A number, and the byte that ends its word.
    fn put_word(&mut self, number: u64, stop: u8)
        requires { HasRoom self.old (decimal number ++ stop ∷ []) }
        ensures { Writes self.old self.new (decimal number ++ stop ∷ []) }
    {
        self.put_number(number);
        self.put(&[stop]);
    }

    // The last number of a line, and the line's end.
    fn put_last(&mut self, number: u64)
        requires { HasRoom self.old (decimal number ++ 10 ∷ []) }
        ensures { Writes self.old self.new (decimal number ++ 10 ∷ []) }
    {
        self.put_word(number, b'\n');
    }
}
