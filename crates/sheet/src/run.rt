// Runs of calls on a sheet, under the law.
ghost use Rattle.std.specs.Prelude.{◌≡◌};
ghost use Rattle.audit.specs.Questions.{outcome};
ghost use Rattle.sheet.specs.Answers.{answered, granted, ledger_of};
ghost use Rattle.sheet.specs.Law.{Lawful};
ghost use Rattle.sheet.specs.Ledger.{asked, course, fed, opened};

use crate::call::{Answer, Call};
use crate::sheet::Sheet;
use audit::refusal::Refusal;
use ruler::ruler::Ruler;

fn attempt<R: Ruler>(sheet: &mut Sheet<R>, call: &Call) -> Result<Answer, Refusal>
    ensures answer { result ≡ outcome (asked (R.meaning sheet.old.ruler) (ledger_of sheet.old.net) call.now) (granted (R.meaning sheet.old.ruler) sheet.old.net call.now) }
    ensures after { ledger_of sheet.new.net ≡ fed (R.meaning sheet.old.ruler) (ledger_of sheet.old.net) call.now }
    ensures same { sheet.new.ruler ≡ sheet.old.ruler }
    ensures law { Lawful (R.meaning sheet.new.ruler) sheet.new.net }
{
    match *call {
        Call::Seat { id, site, current } => sheet.seat(id, site, current).map(|()| Answer::Done),
        Call::Move { id, site } => sheet.move_to(id, site).map(|()| Answer::Done),
        Call::Alter { id, current } => sheet.alter(id, current).map(|()| Answer::Done),
        Call::Lift { id } => sheet.lift(id).map(|()| Answer::Done),
        Call::Plan => sheet.plan().map(|()| Answer::Done),
        Call::Audit { wires, marks } => sheet.audit(wires, marks).map(Answer::Area),
        Call::Area => sheet.area().map(Answer::Area),
        Call::Wire { number } => sheet.wire(number).map(Answer::Wire),
        Call::Mark { id } => sheet.mark(id).map(Answer::Mark),
    }
}

// Makes one call.
pub fn perform<R: Ruler>(sheet: &mut Sheet<R>, call: &Call) -> Answer
    ensures answer { result ≡ answered (R.meaning sheet.old.ruler) sheet.old.net call.now }
    ensures after { ledger_of sheet.new.net ≡ fed (R.meaning sheet.old.ruler) (ledger_of sheet.old.net) call.now }
    ensures same { sheet.new.ruler ≡ sheet.old.ruler }
    ensures law { Lawful (R.meaning sheet.new.ruler) sheet.new.net }
{
    attempt(sheet, call).unwrap_or_else(Answer::Refused)
}

// The sheet over a ruler after a run of calls.
#[tactic(auto, using(crate::proofs::Courses::course_more))]
pub fn follow<R: Ruler>(ruler: R, calls: &[Call]) -> Sheet<R>
    ensures kept { result.ruler ≡ ruler }
    ensures ledger { ledger_of result.net ≡ course (R.meaning ruler) opened calls.now }
    ensures law { Lawful (R.meaning ruler) result.net }
{
    let mut sheet = Sheet::open(ruler);
    for call in calls {
        let _ = perform(&mut sheet, call);
    }
    sheet
}
