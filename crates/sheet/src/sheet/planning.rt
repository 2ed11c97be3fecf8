// Planning: the wires of least area, once for each state of the terminals.
ghost use Rattle.std.specs.Prelude.{◌≡◌, true, is_some, Some};
ghost use Rattle.audit.specs.Questions.{outcome};
ghost use Rattle.audit.specs.declared.refusal.Refusal.{Refusal as Why};
ghost use Rattle.sheet.specs.Answers.{ledger_of};
ghost use Rattle.sheet.specs.Law.{Lawful};
ghost use Rattle.sheet.specs.Ledger.{asked, fed};
ghost use Rattle.sheet.specs.declared.call.Call.TheVariants.{Plan};

use crate::sheet::Sheet;
use audit::refusal::Refusal;
use planner::plan_of;
use ruler::ruler::Ruler;
use wires::balance::balance_of;

impl<R: Ruler> Sheet<R> {
    // Plans a balanced sheet; a sheet that is planned stays as it is.
    pub fn plan(&mut self) -> Result<(), Refusal>
        ensures answer { result ≡ outcome (asked (R.meaning self.old.ruler) (ledger_of self.old.net) Plan) tt }
        ensures after { ledger_of self.new.net ≡ fed (R.meaning self.old.ruler) (ledger_of self.old.net) Plan }
        ensures refused { (no' : Why) → asked (R.meaning self.old.ruler) (ledger_of self.old.net) Plan ≡ Some no' → self.new.net ≡ self.old.net }
        ensures again { is_some self.old.net.plan ≡ true → self.new.net ≡ self.old.net }
        ensures same { self.new.ruler ≡ self.old.ruler }
        ensures law { Lawful (R.meaning self.new.ruler) self.new.net }
    {
        if balance_of(&self.net.table.rows) != 0 {
            return Err(Refusal::Unbalanced);
        }
        if self.net.plan.is_none() {
            self.net.plan = plan_of(&self.ruler, &self.net.table);
        }
        Ok(())
    }
}
