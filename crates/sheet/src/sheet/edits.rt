// The edits: each is put to its questions first, and then changes one row and no other.
ghost use Rattle.std.specs.Prelude.{◌≡◌, ◌-◌, ◌≤◌, true, [], ◌∷◌, Some, None, Ok, Err, IfOk, OnOk, slice_set};
ghost use Rattle.audit.specs.Questions.{allowed, first_no, outcome, row_allowed};
ghost use Rattle.sheet.specs.Questions.{id_in_range, id_is_seated, row_known, row_of, site_is_known};
ghost use Rattle.sheet.specs.Law.{Lawful};
ghost use Rattle.sheet.specs.Answers.{ledger_of};
ghost use Rattle.sheet.specs.Ledger.{asked, fed, unless};
ghost use Rattle.sheet.specs.declared.call.Call.TheVariants.{Seat, Move, Alter, Lift};

use crate::sheet::Sheet;
use audit::current::is_allowed;
use audit::refusal::Refusal;
use ruler::ruler::Ruler;
use wires::terminal::Terminal;

impl<R: Ruler> Sheet<R> {
    pub fn seat(&mut self, id: u32, site: u32, current: i32) -> Result<(), Refusal>
        ensures answer { result ≡ outcome (asked (R.meaning self.old.ruler) (ledger_of self.old.net) (Seat id site current)) tt }
        ensures after { ledger_of self.new.net ≡ fed (R.meaning self.old.ruler) (ledger_of self.old.net) (Seat id site current) }
        ensures plan { self.new.net.plan ≡ unless (asked (R.meaning self.old.ruler) (ledger_of self.old.net) (Seat id site current)) self.old.net.plan None }
        ensures same { self.new.ruler ≡ self.old.ruler }
        ensures law { Lawful (R.meaning self.new.ruler) self.new.net }
    {
        self.seat_question(id, site, current)?;
        self.enter(id, Some(Terminal { site, current }));
        Ok(())
    }

    pub fn move_to(&mut self, id: u32, site: u32) -> Result<(), Refusal>
        ensures answer { result ≡ outcome (asked (R.meaning self.old.ruler) (ledger_of self.old.net) (Move id site)) tt }
        ensures after { ledger_of self.new.net ≡ fed (R.meaning self.old.ruler) (ledger_of self.old.net) (Move id site) }
        ensures plan { self.new.net.plan ≡ unless (asked (R.meaning self.old.ruler) (ledger_of self.old.net) (Move id site)) self.old.net.plan None }
        ensures same { self.new.ruler ≡ self.old.ruler }
        ensures law { Lawful (R.meaning self.new.ruler) self.new.net }
    {
        let pin = self.seated(id)?;
        self.site_question(id, site)?;
        self.enter(id, Some(Terminal { site, ..pin }));
        Ok(())
    }

    pub fn alter(&mut self, id: u32, current: i32) -> Result<(), Refusal>
        ensures answer { result ≡ outcome (asked (R.meaning self.old.ruler) (ledger_of self.old.net) (Alter id current)) tt }
        ensures after { ledger_of self.new.net ≡ fed (R.meaning self.old.ruler) (ledger_of self.old.net) (Alter id current) }
        ensures plan { self.new.net.plan ≡ unless (asked (R.meaning self.old.ruler) (ledger_of self.old.net) (Alter id current)) self.old.net.plan None }
        ensures same { self.new.ruler ≡ self.old.ruler }
        ensures law { Lawful (R.meaning self.new.ruler) self.new.net }
    {
        let pin = self.seated(id)?;
        if !is_allowed(i64::from(current)) {
            return Err(Refusal::CurrentOutOfRange { id });
        }
        self.enter(id, Some(Terminal { current, ..pin }));
        Ok(())
    }

    pub fn lift(&mut self, id: u32) -> Result<(), Refusal>
        ensures answer { result ≡ outcome (asked (R.meaning self.old.ruler) (ledger_of self.old.net) (Lift id)) tt }
        ensures after { ledger_of self.new.net ≡ fed (R.meaning self.old.ruler) (ledger_of self.old.net) (Lift id) }
        ensures plan { self.new.net.plan ≡ unless (asked (R.meaning self.old.ruler) (ledger_of self.old.net) (Lift id)) self.old.net.plan None }
        ensures same { self.new.ruler ≡ self.old.ruler }
        ensures law { Lawful (R.meaning self.new.ruler) self.new.net }
    {
        let _ = self.seated(id)?;
        self.enter(id, None);
        Ok(())
    }

    // Changes one row and no other; the plan is gone.
    fn enter(&mut self, id: u32, row: Option<Terminal>)
        requires id { (1 ≤ id) × (id ≤ 64) }
        requires allowed { row_allowed row ≡ true }
        requires known { row_known (R.meaning self.old.ruler) row ≡ true }
        ensures after { self.new.net.table.rows ≡ slice_set self.old.net.table.rows (id - 1) row }
        ensures plan { self.new.net.plan ≡ None }
        ensures same { self.new.ruler ≡ self.old.ruler }
    {
        self.reopen();
        self.net.table.rows[id as usize - 1] = row;
    }

    // The sheet is open: its wires and marks are gone.
    fn reopen(&mut self)
        ensures plan { self.new.net.plan ≡ None }
        ensures table { self.new.net.table ≡ self.old.net.table }
        ensures same { self.new.ruler ≡ self.old.ruler }
    {
        self.net.plan = None;
    }

    // The questions that seat is put to.
    fn seat_question(&self, id: u32, site: u32, current: i32) -> Result<(), Refusal>
        ensures asked { result ≡ outcome (asked (R.meaning self.now.ruler) (ledger_of self.now.net) (Seat id site current)) tt }
        ensures known { OnOk result ((R.meaning self.now.ruler).known site ≡ true) }
    {
        if self.row(id)?.is_some() {
            return Err(Refusal::IdTaken { id });
        }
        if !is_allowed(i64::from(current)) {
            return Err(Refusal::CurrentOutOfRange { id });
        }
        self.site_question(id, site)
    }

    fn site_question(&self, id: u32, site: u32) -> Result<(), Refusal>
        ensures asked { result ≡ outcome (site_is_known (R.meaning self.now.ruler) id site) tt }
        ensures known { OnOk result ((R.meaning self.now.ruler).known site ≡ true) }
    {
        let Some(_) = self.ruler.length(site, site) else {
            return Err(Refusal::SiteUnknown { id });
        };
        Ok(())
    }

    // The row of an id.
    fn row(&self, id: u32) -> Result<Option<Terminal>, Refusal>
        ensures { result ≡ outcome (id_in_range id) (row_of self.now.net.table.rows id) }
    {
        if id < 1 || id > 64 {
            return Err(Refusal::IdOutOfRange { id });
        }
        Ok(self.net.table.rows[id as usize - 1])
    }

    // The terminal of an id, or the first no of the two questions that ask for one.
    pub(super) fn seated(&self, id: u32) -> Result<Terminal, Refusal>
        ensures found { elim result [ Ok t ↦ (1 ≤ id) × (id ≤ 64) × (row_of self.now.net.table.rows id ≡ Some t) | Err e ↦ Some e ≡ first_no (id_in_range id ∷ id_is_seated self.now.net.table.rows id ∷ []) ] }
        ensures known { IfOk result (λ t. (R.meaning self.now.ruler).known t.site ≡ true) }
    {
        let Some(terminal) = self.row(id)? else {
            return Err(Refusal::IdFree { id });
        };
        Ok(terminal)
    }
}
