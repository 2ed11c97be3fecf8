// The words of a line, taken one after another: a line that has not just its words is refused before any word is looked at.
// Each is taken by a `let .. else`, so that the refusal stands where its word is.
ghost use Rattle.std.specs.Prelude.{◌≡◌, ℕ, ◌+◌, ◌≤◌, List, [], ◌∷◌, length, is_some, if◌then◌else◌, Some, None};
ghost use Rattle.std.specs.Option.{option_map};
ghost use Rattle.reader.specs.Lines.{arc_said, next_said, node_said, problem_said, said, tail};
ghost use Rattle.reader.specs.Reading.{Follow, lined, next_word, place_of, word_of, worded};
ghost use Rattle.reader.specs.Refusals.{refused};
ghost use Rattle.reader.specs.Words.{rows, words};
ghost use Rattle.reader.specs.declared.refusal.Fault.TheVariants.{LineWords};

use crate::line::number::{flow, number};
use crate::line::{ArcLine, Line, NodeLine, ProblemLine};
use crate::reader::{Reader, Word};
use crate::refusal::{Fault, Refusal};

// A line has too few words or too many.
fn miscounted(line: usize) -> Refusal
    ensures { result ≡ refused LineWords line 0 }
{
    Fault::LineWords.at(line, 0)
}

fn malformed(word: Word) -> Refusal
    ensures { result ≡ refused LineWords word.entry.line word.entry.number }
{
    Fault::LineWords.at(word.line, word.number)
}

// The next word of a line, by the words that are left of it.
fn take_word<'a>(reader: &mut Reader<'a>) -> Option<Word<'a>>
    ensures answer { option_map word_of result ≡ next_word (place_of reader.old) }
    ensures place { place_of reader.new ≡ worded (place_of reader.old) }
    ensures words { words (place_of reader.old).left ≡ elim result [ Some w ↦ w.text.now ∷ words (place_of reader.new).left | None ↦ [] ] }
{
    reader.next_word()
}

// The next line, by the lines that are left of the file.
fn take_line(reader: &mut Reader) -> bool
    ensures place { place_of reader.new ≡ (if result then lined (place_of reader.old) else place_of reader.old) }
    ensures rows { rows (place_of reader.old).after ≡ (if result then words (place_of reader.new).left ∷ rows (place_of reader.new).after else []) }
    ensures falls { length (place_of reader.new).after + (if result then 1 else 0) ≤ length (place_of reader.old).after }
{
    reader.next_line()
}

// p min N ARCS
fn read_problem(reader: &mut Reader) -> Result<Line, Refusal>
    requires { reader.old.word ≡ 1 }
    ensures said { (w : List ℕ) → result ≡ problem_said reader.old.line (w ∷ words (place_of reader.old).left) }
    ensures line { reader.new.line ≡ reader.old.line }
    ensures after { (place_of reader.new).after ≡ (place_of reader.old).after }
{
    let line = reader.line();
    let Some(kind) = take_word(reader) else {
        return Err(miscounted(line));
    };
    let Some(sites) = take_word(reader) else {
        return Err(miscounted(line));
    };
    let Some(arcs) = take_word(reader) else {
        return Err(miscounted(line));
    };
    let None = take_word(reader) else {
        return Err(miscounted(line));
    };
    let Some(site_count) = number(sites.text) else {
        return Err(malformed(sites));
    };
    let Some(arc_count) = number(arcs.text) else {
        return Err(malformed(arcs));
    };
    Ok(Line::Problem(ProblemLine {
        is_min: kind.text == b"min".as_slice(),
        sites: site_count,
        arcs: arc_count,
    }))
}

// n ID FLOW
fn read_node(reader: &mut Reader) -> Result<Line, Refusal>
    requires { reader.old.word ≡ 1 }
    ensures said { (w : List ℕ) → result ≡ node_said reader.old.line (w ∷ words (place_of reader.old).left) }
    ensures line { reader.new.line ≡ reader.old.line }
    ensures after { (place_of reader.new).after ≡ (place_of reader.old).after }
{
    let line = reader.line();
    let Some(id) = take_word(reader) else {
        return Err(miscounted(line));
    };
    let Some(amount) = take_word(reader) else {
        return Err(miscounted(line));
    };
    let None = take_word(reader) else {
        return Err(miscounted(line));
    };
    let Some(node) = number(id.text) else {
        return Err(malformed(id));
    };
    let Some(current) = flow(amount.text) else {
        return Err(malformed(amount));
    };
    Ok(Line::Node(NodeLine {
        id: node,
        flow: current,
    }))
}

// The five numbers of an arc, from its words.
fn arc_of<'a>(
    source: Word<'a>,
    target: Word<'a>,
    least: Word<'a>,
    most: Word<'a>,
    price: Word<'a>,
) -> Result<Line, Refusal>
    requires { Follow source.line 2 (word_of source ∷ word_of target ∷ word_of least ∷ word_of most ∷ word_of price ∷ []) }
    ensures { (w : List ℕ) → result ≡ arc_said source.entry.line (w ∷ source.entry.text.now ∷ target.entry.text.now ∷ least.entry.text.now ∷ most.entry.text.now ∷ price.entry.text.now ∷ []) }
{
    let Some(from) = number(source.text) else {
        return Err(malformed(source));
    };
    let Some(to) = number(target.text) else {
        return Err(malformed(target));
    };
    let Some(low) = number(least.text) else {
        return Err(malformed(least));
    };
    let Some(cap) = number(most.text) else {
        return Err(malformed(most));
    };
    let Some(cost) = number(price.text) else {
        return Err(malformed(price));
    };
    Ok(Line::Arc(ArcLine {
        from,
        to,
        low,
        cap,
        cost,
    }))
}

// a SRC DST LOW CAP COST
fn read_arc(reader: &mut Reader) -> Result<Line, Refusal>
    requires { reader.old.word ≡ 1 }
    ensures said { (w : List ℕ) → result ≡ arc_said reader.old.line (w ∷ words (place_of reader.old).left) }
    ensures line { reader.new.line ≡ reader.old.line }
    ensures after { (place_of reader.new).after ≡ (place_of reader.old).after }
{
    let line = reader.line();
    let Some(source) = take_word(reader) else {
        return Err(miscounted(line));
    };
    let Some(target) = take_word(reader) else {
        return Err(miscounted(line));
    };
    let Some(least) = take_word(reader) else {
        return Err(miscounted(line));
    };
    let Some(most) = take_word(reader) else {
        return Err(miscounted(line));
    };
    let Some(price) = take_word(reader) else {
        return Err(miscounted(line));
    };
    let None = take_word(reader) else {
        return Err(miscounted(line));
    };
    arc_of(source, target, least, most, price)
}

// What a line says, from its first word on.
fn read_words(reader: &mut Reader) -> Result<Line, Refusal>
    requires { reader.old.word ≡ 0 }
    ensures said { result ≡ said reader.old.line (words (place_of reader.old).left) }
    ensures line { reader.new.line ≡ reader.old.line }
    ensures after { (place_of reader.new).after ≡ (place_of reader.old).after }
{
    let Some(kind) = take_word(reader) else {
        return Ok(Line::Blank);
    };
    match kind.text {
        [b'c'] => Ok(Line::Comment),
        [b'p'] => read_problem(reader),
        [b'n'] => read_node(reader),
        [b'a'] => read_arc(reader),
        _ => Err(Fault::LineKind.at(kind.line, kind.number)),
    }
}

// What the next line of a file says, absent at the end of the file.
pub fn read_line(reader: &mut Reader) -> Option<Result<Line, Refusal>>
    ensures said { result ≡ next_said reader.old.line (rows (place_of reader.old).after) }
    ensures rows { rows (place_of reader.new).after ≡ tail (rows (place_of reader.old).after) }
    ensures line { reader.new.line ≡ (if is_some result then reader.old.line + 1 else reader.old.line) }
    ensures falls { length (place_of reader.new).after + (if is_some result then 1 else 0) ≤ length (place_of reader.old).after }
{
    if take_line(reader) {
        Some(read_words(reader))
    } else {
        None
    }
}
