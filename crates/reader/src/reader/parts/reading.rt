// The calls of a reader.
ghost use Rattle.std.specs.Prelude.{◌≡◌, not, length, if◌then◌else◌, ◌==◌};
ghost use Rattle.std.specs.Option.{option_map};
ghost use Rattle.reader.specs.Reading.{begun, lined, next_word, place_of, word_of, worded};

use crate::reader::parts::{split, trim};
use crate::reader::{Reader, Word};

impl<'a> Reader<'a> {
    // A reader before the first line.
    pub fn new(file: &'a [u8]) -> Reader<'a>
        ensures { place_of result ≡ begun file.now }
    {
        Reader {
            left: &[],
            after: file,
            line: 0,
            word: 0,
        }
    }

    // The number of the line, from 1; 0 before the first.
    pub fn line(&self) -> usize
        ensures { result ≡ self.now.line }
    {
        self.line
    }

    // Goes on to the next line; false at the end of the file.
    pub fn next_line(&mut self) -> bool
        ensures answer { result ≡ not (length (place_of self.old).after == 0) }
        ensures place { place_of self.new ≡ (if result then lined (place_of self.old) else place_of self.old) }
    {
        if self.after.is_empty() {
            return false;
        }
        let (left, after) = split(self.after, b'\n');
        *self = Reader {
            left,
            after,
            line: self.line + 1,
            word: 0,
        };
        true
    }

    // The next word of the line, absent at its end.
    pub fn next_word(&mut self) -> Option<Word<'a>>
        ensures answer { option_map word_of result ≡ next_word (place_of self.old) }
        ensures place { place_of self.new ≡ worded (place_of self.old) }
    {
        let rest = trim(self.left);
        let (text, left) = split(rest, b' ');
        self.left = left;
        if rest.is_empty() {
            return None;
        }
        self.word += 1;
        Some(Word {
            text,
            line: self.line,
            number: self.word,
        })
    }
}
