// A reader over the bytes of a file, which hands out the words of one line after another as parts of these bytes.
ghost use Rattle.std.specs.Prelude.{◌+◌, ◌^◌, ◌<◌, length};

mod parts;

#[derive(Clone, Copy)]
pub struct Reader<'a> {
    left: &'a [u8],
    after: &'a [u8],
    line: usize,
    word: usize,
    ghost lines: { line + length after.now < 2 ^ 64 },
    ghost words: { word + length left.now < 2 ^ 64 },
}

// A word with its line and its number in the line, both counted from 1.
#[derive(Clone, Copy)]
pub struct Word<'a> {
    pub text: &'a [u8],
    pub line: usize,
    pub number: usize,
}
