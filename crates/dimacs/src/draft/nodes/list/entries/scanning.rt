// A whole file, line by line from the top.
ghost use Rattle.std.specs.Prelude.{◌≡◌, ◌+◌, ◌^◌, ◌<◌, ◌≤◌};
ghost use Rattle.dimacs.specs.Contents.{draft_of, given_by, left_by};
ghost use Rattle.dimacs.specs.Layout.{Exact};
ghost use Rattle.dimacs.specs.Scan.{complete, entered, scanned, well_formed};

use crate::draft::Draft;
use crate::sites::Sites;
use reader::line::{Line, read_line};
use reader::reader::Reader;
use reader::refusal::{Fault, Refusal};

// At most 65,536 bytes, the last of them byte 10.
fn is_well_formed(file: &[u8]) -> bool
    ensures { result ≡ well_formed file.now }
{
    file.len() <= 65_536 && file.ends_with(b"\n")
}

impl Draft {
    // Enters what a line says.
    fn enter<S: Sites>(&mut self, sites: &S, line: usize, said: Line) -> Result<(), Refusal>
        requires { self.old.lines < 2 ^ 32 }
        ensures entry { left_by result (draft_of self.new) ≡ entered (S.known sites.now) line (draft_of self.old) said }
        ensures lines { self.new.lines ≤ self.old.lines + 1 }
    {
        match said {
            Line::Blank | Line::Comment => Ok(()),
            Line::Problem(problem) => self.enter_problem(line, problem),
            Line::Node(node) => self.enter_node(sites, line, node),
            Line::Arc(arc) => self.enter_arc(line, arc),
        }
    }

    // There was a problem, and as many arcs as it says.
    fn is_complete(&self) -> bool
        ensures { result ≡ complete self.now.problem self.now.lines }
    {
        self.problem
            .is_some_and(|problem| problem.arcs as usize == self.lines)
    }
}

// The lines of a file, entered one after another.
fn scan_lines<S: Sites>(file: &[u8], sites: &S) -> Result<Draft, Refusal>
    ensures { given_by result ≡ scanned (S.known sites.now) file.now }
{
    if !is_well_formed(file) {
        return Err(Fault::FileForm.at(0, 0));
    }
    let mut reader = Reader::new(file);
    let mut draft = Draft::nothing();
    while let Some(line) = read_line(&mut reader) {
        let said = line?;
        draft.enter(sites, reader.line(), said)?;
    }
    if !draft.is_complete() {
        return Err(Fault::ArcCount.at(reader.line() + 1, 0));
    }
    Ok(draft)
}

// The contents of a file, or the first refusal.
#[tactic(auto, using(crate::proofs::Exactness::exact))]
pub fn scan<S: Sites>(file: &[u8], sites: &S) -> Result<Draft, Refusal>
    ensures answer { given_by result ≡ scanned (S.known sites.now) file.now }
    ensures document { Exact (S.known sites.now) file.now (given_by result) }
{
    scan_lines(file, sites)
}
