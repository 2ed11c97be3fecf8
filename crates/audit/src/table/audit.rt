// The audit of a filed plan against the sheet's terminals: one question a loop, each put to the whole list. Sums of
// signed numbers are loops too, since the toolchain's sum of these says nothing of its bound.
ghost use Rattle.std.specs.Prelude.{◌≡◌, ◌^◌, ◌≤◌, true, not, [], length, pos, neg_ℤ, ◌≤ℤ◌};
ghost use Rattle.wires.specs.Wiring.{area, due, flow, lies, net, row_adds, seated, share};
ghost use Rattle.wires.specs.Marks.{value, worth};
ghost use Rattle.audit.specs.Questions.{first_no, outcome, row_allowed};
ghost use Rattle.audit.specs.Audit.{carries, lowest, mark_fits, wire_at, row_at, mark_at, pulls, too_far, strained, unmet, pins, audit_asked, form_questions};
ghost use Rattle.audit.specs.Law.{Readable};
ghost use Rattle.audit.specs.Search.{lowered, IsSite, Looked};

use crate::refusal::Refusal;
use crate::table::Table;
use ruler::ruler::Ruler;
use wires::area::area_of;
use wires::terminal::Terminal;
use wires::wire::Wire;

fn is_carrying(wire: Wire) -> bool
    ensures { result ≡ carries wire }
{
    1 <= wire.current && wire.current <= 32_000_000
}

// The first wire whose current is out of range.
fn bad_current(wires: &[Wire]) -> Option<usize>
    ensures { result ≡ lowest (λ i. not (carries (wire_at wires.now i))) (length wires.now) }
{
    for (i, wire) in wires.iter().enumerate() {
        if !is_carrying(*wire) {
            return Some(i);
        }
    }
    None
}

// The first wire with an unknown site.
fn bad_site<R: Ruler>(ruler: &R, wires: &[Wire]) -> Option<usize>
    ensures { result ≡ lowest (λ i. not (lies (R.meaning ruler.now) (wire_at wires.now i))) (length wires.now) }
{
    for (i, wire) in wires.iter().enumerate() {
        let Some(_) = ruler.length(wire.start, wire.end) else {
            return Some(i);
        };
    }
    None
}

fn is_fitting(row: Option<Terminal>, mark: u32) -> bool
    ensures { result ≡ mark_fits row mark }
{
    match row {
        Some(_) => mark <= 4_000_000,
        None => mark == 0,
    }
}

// Whether b's mark y lies above a's mark x by more than the length from a to b.
fn is_too_far<R: Ruler>(ruler: &R, a: Option<Terminal>, x: u32, b: Option<Terminal>, y: u32) -> bool
    ensures { result ≡ too_far (R.meaning ruler.now) a x b y }
{
    let Some(a) = a else {
        return false;
    };
    let Some(b) = b else {
        return false;
    };
    let Some(length) = ruler.length(a.site, b.site) else {
        return true;
    };
    u64::from(x) + u64::from(length) < u64::from(y)
}

// The amount, where it stands at the site.
fn share_of(at: u32, site: u32, amount: i64) -> i64
    ensures { result ≡ share at site amount }
{
    if at == site { amount } else { 0 }
}

// What a row seats at a site.
fn due_of(row: Option<Terminal>, site: u32) -> i64
    ensures due { result ≡ row_adds (λ t. share t.site site t.current) row }
    ensures low { neg_ℤ (pos 2147483648) ≤ℤ result }
    ensures high { result ≤ℤ pos 2147483648 }
{
    match row {
        Some(terminal) => share_of(terminal.site, site, i64::from(terminal.current)),
        None => 0,
    }
}

// What one wire adds to the net of a site.
fn flow_of(site: u32, wire: Wire) -> i64
    ensures flow { result ≡ flow site wire }
    ensures low { neg_ℤ (pos 4294967296) ≤ℤ result }
    ensures high { result ≤ℤ pos 4294967296 }
{
    let current = i64::from(wire.current);
    share_of(wire.start, site, current) - share_of(wire.end, site, current)
}

// Taken current × mark of a sink, less given current × mark of a source.
fn worth_of(row: Option<Terminal>, mark: u32) -> i64
    requires { row_allowed row ≡ true }
    ensures worth { result ≡ row_adds (λ t. worth (record { terminal = t; mark = mark })) row }
    ensures low { neg_ℤ (pos 4294967296000000) ≤ℤ result }
    ensures high { result ≤ℤ pos 4294967296000000 }
{
    match row {
        Some(terminal) => -i64::from(terminal.current) * i64::from(mark),
        None => 0,
    }
}

// The area of a list that audit can read: 1,024 wires of 32,000,000 over 4,000,000 at the most.
fn readable_area<R: Ruler>(ruler: &R, wires: &[Wire]) -> u64
    requires { Readable (R.meaning ruler.now) wires.now }
    ensures area { result ≡ area (R.meaning ruler.now) wires.now }
    ensures high { result ≤ 131072000000000000 }
{
    match area_of(ruler, wires) {
        Some(area) => area as u64,
        None => unreachable(),
    }
}

// Wires filed for a table, few enough that every sum of their currents fits.
#[derive(Clone, Copy)]
struct Filing<'a> {
    table: &'a Table,
    wires: &'a [Wire],
    ghost few: { length wires.now ≤ 1024 },
}

impl Filing<'_> {
    // The net of a site: what leaves it minus what arrives.
    fn net_at(&self, site: u32) -> i64
        ensures { result ≡ net self.now.wires.now site }
    {
        let mut sum: i64 = 0;
        for wire in self.wires {
            sum += flow_of(site, *wire);
        }
        sum
    }

    // Whether the net of a site is other than what is seated there.
    fn is_unmet(&self, site: u32) -> bool
        ensures { result ≡ unmet self.now.table.now.rows self.now.wires.now site }
    {
        self.net_at(site) != self.table.due_at(site)
    }

    // The site found so far, or this one where it is lower and unmet.
    fn lower_unmet(&self, found: Option<u32>, site: u32) -> Option<u32>
        ensures lower { result ≡ lowered (unmet self.now.table.now.rows self.now.wires.now) found site }
        ensures site { IsSite result }
    {
        if let Some(low) = found {
            if low <= site {
                return found;
            }
        }
        if self.is_unmet(site) {
            return Some(site);
        }
        found
    }

    // The smallest unmet site that a wire touches.
    fn unmet_end(&self) -> Option<u32>
        ensures { Looked (unmet self.now.table.now.rows self.now.wires.now) result self.now.wires.now [] }
    {
        let mut found = None;
        for wire in self.wires {
            found = self.lower_unmet(found, wire.start);
            found = self.lower_unmet(found, wire.end);
        }
        found
    }

    // The smallest unmet site: where no wire touches it, a terminal does.
    fn unmet_site(&self) -> Option<u32>
        ensures { result ≡ lowest (unmet self.now.table.now.rows self.now.wires.now) (2 ^ 32) }
    {
        let mut found = self.unmet_end();
        for row in &self.table.rows {
            if let Some(terminal) = *row {
                found = self.lower_unmet(found, terminal.site);
            }
        }
        found
    }
}

impl Table {
    // The sum of the currents seated at a site.
    fn due_at(&self, site: u32) -> i64
        ensures { result ≡ due (seated self.now.rows) site }
    {
        let mut sum: i64 = 0;
        for row in &self.rows {
            sum += due_of(*row, site);
        }
        sum
    }

    // The first row whose mark is out of range.
    fn bad_mark(&self, marks: &[u32; 64]) -> Option<usize>
        ensures { result ≡ lowest (λ i. not (mark_fits (row_at self.now.rows i) (mark_at marks.now i))) 64 }
    {
        for (i, (row, mark)) in self.rows.iter().zip(marks).enumerate() {
            if !is_fitting(*row, *mark) {
                return Some(i);
            }
        }
        None
    }

    // Whether some row is marked too far above a row with that mark.
    fn is_strained<R: Ruler>(
        &self,
        ruler: &R,
        marks: &[u32; 64],
        from: Option<Terminal>,
        mark: u32,
    ) -> bool
        ensures { result ≡ pulls (R.meaning ruler.now) self.now.rows marks.now from mark }
    {
        for (row, other) in self.rows.iter().zip(marks) {
            if is_too_far(ruler, from, mark, *row, *other) {
                return true;
            }
        }
        false
    }

    // The first row that another is marked too far above.
    fn bad_reach<R: Ruler>(&self, ruler: &R, marks: &[u32; 64]) -> Option<usize>
        ensures { result ≡ lowest (strained (R.meaning ruler.now) self.now.rows marks.now) 64 }
    {
        for (a, (row, mark)) in self.rows.iter().zip(marks).enumerate() {
            if self.is_strained(ruler, marks, *row, *mark) {
                return Some(a);
            }
        }
        None
    }

    // The value of the marks on the seated terminals.
    fn value_of(&self, marks: &[u32; 64]) -> i64
        ensures { result ≡ value (pins self.now.rows marks.now) }
    {
        let mut value: i64 = 0;
        for (row, mark) in self.rows.iter().zip(marks) {
            value += worth_of(*row, *mark);
        }
        value
    }

    // Whether a filed list of wires uses the least metal, as its marks show; the answer is its area.
    pub fn audit<R: Ruler>(&self, ruler: &R, wires: &[Wire], marks: &[u32]) -> Result<u64, Refusal>
        ensures { result ≡ outcome (audit_asked (R.meaning ruler.now) self.now.rows wires.now marks.now) (area (R.meaning ruler.now) wires.now) }
    {
        let Some(marks) = marks.as_array() else {
            return Err(Refusal::MarkCount);
        };
        self.form_question(ruler, wires, marks)?;
        let area = readable_area(ruler, wires);
        if area as i64 != self.value_of(marks) {
            return Err(Refusal::AreaDiffers);
        }
        Ok(area)
    }

    // All questions between the first and the last.
    fn form_question<R: Ruler>(
        &self,
        ruler: &R,
        wires: &[Wire],
        marks: &[u32; 64],
    ) -> Result<(), Refusal>
        ensures { result ≡ outcome (first_no (form_questions (R.meaning ruler.now) self.now.rows wires.now marks.now)) tt }
    {
        if wires.len() > 1_024 {
            return Err(Refusal::WireCount);
        }
        let filing = Filing { table: self, wires };
        if let Some(i) = bad_current(wires) {
            return Err(Refusal::WireCurrent { wire: i as u32 });
        }
        if let Some(i) = bad_site(ruler, wires) {
            return Err(Refusal::WireSite { wire: i as u32 });
        }
        if let Some(i) = self.bad_mark(marks) {
            return Err(Refusal::MarkOutOfRange { id: i as u32 + 1 });
        }
        if let Some(site) = filing.unmet_site() {
            return Err(Refusal::Unmet { site });
        }
        if let Some(a) = self.bad_reach(ruler, marks) {
            return Err(Refusal::MarksApart { id: a as u32 + 1 });
        }
        Ok(())
    }
}
