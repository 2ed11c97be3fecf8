// A sheet keeps one net over one ruler, which it owns, so nothing changes that ruler while the sheet lasts.
ghost use Rattle.std.specs.Prelude.{◌≡◌};
ghost use Rattle.audit.specs.Audit.{audit_asked};
ghost use Rattle.audit.specs.Law.{Upheld};
ghost use Rattle.planner.specs.Planned.{IfPlanned, Planned};
ghost use Rattle.planner.proofs.Facts.{IfPlanned-prop, Upheld-prop};
ghost use Rattle.audit.specs.Questions.{outcome};
ghost use Rattle.wires.specs.Wiring.{area};
ghost use Rattle.sheet.specs.Answers.{ledger_of};
ghost use Rattle.sheet.specs.Law.{Lawful};
ghost use Rattle.sheet.specs.Ledger.{opened};

use crate::net::Net;
use audit::refusal::Refusal;
use audit::table::Table;
use ruler::ruler::Ruler;
use wires::wire::Wire;

mod edits;
mod observe;
mod planning;

#[derive(Drop)]
pub struct Sheet<R: Ruler> {
    ruler: R,
    net: Net,
    ghost upheld: { Upheld (R.meaning ruler) net.table.rows } by { Upheld-prop _ _ },
    ghost planned: { IfPlanned net.plan (Planned (R.meaning ruler) net.table.rows) } by { IfPlanned-prop _ _ _ },
}

impl Net {
    // No terminals and no plan.
    fn empty() -> Net
        ensures { ledger_of result ≡ opened }
    {
        Net {
            table: Table { rows: [None; 64] },
            plan: None,
        }
    }
}

impl<R: Ruler> Sheet<R> {
    // A sheet without terminals.
    pub fn open(ruler: R) -> Sheet<R>
        ensures kept { result.ruler ≡ ruler }
        ensures ledger { ledger_of result.net ≡ opened }
        ensures law { Lawful (R.meaning ruler) result.net }
    {
        let net = Net::empty();
        Sheet { ruler, net }
    }

    // Whether a filed list of wires uses the least metal, as its marks show; the answer is its area.
    pub fn audit(&self, wires: &[Wire], marks: &[u32]) -> Result<u64, Refusal>
        ensures { result ≡ outcome (audit_asked (R.meaning self.now.ruler) self.now.net.table.rows wires.now marks.now) (area (R.meaning self.now.ruler) wires.now) }
    {
        self.net.table.audit(&self.ruler, wires, marks)
    }
}
