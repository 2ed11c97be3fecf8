// What a sheet answers; nothing changes.
ghost use Rattle.std.specs.Prelude.{◌≡◌};
ghost use Rattle.std.specs.Option.{option_map};
ghost use Rattle.std.specs.Result.{result_map_both};
ghost use Rattle.audit.specs.Questions.{outcome};
ghost use Rattle.sheet.specs.Answers.{given, ledger_of, told_area, told_mark, told_wire};
ghost use Rattle.sheet.specs.Ledger.{asked};
ghost use Rattle.sheet.specs.Questions.{bare};
ghost use Rattle.sheet.specs.declared.call.Call.TheVariants.{Area, Mark, Wire};

use crate::sheet::Sheet;
use audit::refusal::Refusal;
use planner::plan::Plan;
use ruler::ruler::Ruler;

impl<R: Ruler> Sheet<R> {
    // Whether the sheet's ruler knows a site.
    pub fn knows(&self, site: u32) -> bool
        ensures { result ≡ (R.meaning self.now.ruler).known site }
    {
        self.ruler.known(site)
    }

    // Whether the sheet is without terminals.
    pub fn is_bare(&self) -> bool
        ensures { result ≡ bare self.now.net.table.rows }
    {
        self.net.table.rows.iter().all(|row| row.is_none())
    }

    // The plan, where the sheet is planned.
    pub fn planned(&self) -> Option<&Plan>
        ensures { option_map (λ x. x.now) result ≡ self.now.net.plan }
    {
        self.net.plan.as_ref()
    }

    // The plan, or the no of the question that asks for it.
    fn plan_asked(&self) -> Result<&Plan, Refusal>
        ensures { result_map_both (λ p. p.now) (λ why. why) result ≡ given self.now.net.plan }
    {
        self.planned().ok_or(Refusal::NotPlanned)
    }

    // The area of the plan.
    pub fn area(&self) -> Result<u64, Refusal>
        ensures { result ≡ outcome (asked (R.meaning self.now.ruler) (ledger_of self.now.net) Area) (told_area self.now.net.plan) }
    {
        Ok(self.plan_asked()?.area)
    }

    // A wire of the plan by number: from id, to id and current, absent past the last.
    pub fn wire(&self, number: u32) -> Result<Option<(u32, u32, u32)>, Refusal>
        ensures { result ≡ outcome (asked (R.meaning self.now.ruler) (ledger_of self.now.net) (Wire number)) (told_wire self.now.net.plan number) }
    {
        let plan = self.plan_asked()?;
        let link = plan.links.as_slice().get(number as usize);
        Ok(link.map(|link| (link.from, link.to, link.current)))
    }

    // The mark of an id.
    pub fn mark(&self, id: u32) -> Result<u32, Refusal>
        ensures { result ≡ outcome (asked (R.meaning self.now.ruler) (ledger_of self.now.net) (Mark id)) (told_mark self.now.net.plan id) }
    {
        self.seated(id)?;
        let plan = self.plan_asked()?;
        Ok(plan.marks[id as usize - 1])
    }
}
