// Parts of a text: what stands before and after a stop, and what follows the spaces in front.
ghost use Rattle.std.specs.Prelude.{◌≡◌, ◌+◌, ◌<◌, ◌≤◌, length};
ghost use Rattle.reader.specs.Reading.{past, unspaced, upto};

mod reading;

fn split(text: &[u8], stop: u8) -> (&[u8], &[u8])
    ensures before { result.0.now ≡ upto stop text.now }
    ensures after { result.1.now ≡ past stop text.now }
    ensures bound { length result.0.now + length result.1.now ≤ length text.now }
    ensures falls { 0 < length text.now → length result.1.now < length text.now }
{
    match text.iter().position(|byte| *byte == stop) {
        Some(end) => (&text[..end], &text[end + 1..]),
        None => (text, &[]),
    }
}

// Words are parted by byte 32 alone, and `trim_ascii_start` would take other bytes too.
fn trim(text: &[u8]) -> &[u8]
    ensures value { result.now ≡ unspaced text.now }
    ensures bound { length result.now ≤ length text.now }
{
    match text.iter().position(|byte| *byte != b' ') {
        Some(start) => &text[start..],
        None => &[],
    }
}
