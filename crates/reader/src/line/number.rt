// The numbers of a file: one to ten digits, and for a flow a minus sign that may stand in front.
ghost use Rattle.std.specs.Prelude.{◌≡◌, ◌≤◌, length};
ghost use Rattle.reader.specs.Numbers.{Short, digits_value, flow_of, numeral};

mod parse;

pub use parse::read_line;

// What digits write; absent where a byte is no digit.
fn value_of(text: &[u8]) -> Option<u64>
    requires { length text.now ≤ 10 }
    ensures value { result ≡ digits_value text.now }
    ensures bound { Short result }
{
    let mut n = 0u64;
    for digit in text {
        if !digit.is_ascii_digit() {
            return None;
        }
        n = n * 10 + u64::from(*digit - b'0');
    }
    Some(n)
}

fn number(text: &[u8]) -> Option<u64>
    ensures value { result ≡ numeral text.now }
    ensures bound { Short result }
{
    if text.is_empty() || text.len() > 10 {
        return None;
    }
    value_of(text)
}

fn flow(text: &[u8]) -> Option<i64>
    ensures { result ≡ flow_of text.now }
{
    match text {
        [b'-', digits @ ..] => number(digits).map(|n| -(n as i64)),
        _ => number(text).map(|n| n as i64),
    }
}
