// Loads: a map from the arcs of a file, and a sheet from its nodes. The whole file is tested before anything changes.
ghost use Rattle.std.specs.Prelude.{◌≡◌, None};
ghost use Rattle.ruler.specs.Chart.{Chart, Shows, course};
ghost use Rattle.sheet.specs.Answers.{ledger_of};
ghost use Rattle.sheet.specs.Law.{Lawful};
ghost use Rattle.sheet.specs.Ledger.{asked, fed, unless};
ghost use Rattle.dimacs.specs.Loads.{LoadsMap, LoadsSheet, MapAfter, NetAfter, Seated, anywhere, done, legs_of, seat_call, seats_of, sheet_scanned};
ghost use Rattle.dimacs.specs.Scan.{scanned};

use crate::document::{Arc, Node};
use crate::draft::scan;
use crate::sites::Anywhere;
use reader::refusal::{Fault, Refusal};
use ruler::map::{Map, Step};
use ruler::ruler::Ruler;
use sheet::sheet::Sheet;

// Each arc becomes a leg; the file's test saw to it that none is refused.
fn lay_arcs(map: &mut Map, arcs: &[Arc])
    ensures { (c : Chart) → Shows map.old c → Shows map.new (course c (legs_of arcs.now)) }
{
    for arc in arcs {
        map.make(Step::Leg {
            from: arc.from,
            to: arc.to,
            length: arc.cost,
        });
    }
}

// Draws the map of the file apart, so that a refusal leaves the map as it was.
fn redraw(map: &mut Map, file: &[u8]) -> Result<(), Refusal>
    ensures answer { result ≡ done (scanned anywhere file.now) }
    ensures after { MapAfter (scanned anywhere file.now) map.old map.new }
{
    let draft = scan(file, &Anywhere)?;
    let mut drawn = Map::empty();
    drawn.make(Step::Begin {
        sites: draft.sites(),
        ring: 4_000_000,
    });
    lay_arcs(&mut drawn, draft.arcs());
    *map = drawn;
    Ok(())
}

// Replaces the map by that of a file: its sites, a ring of 4,000,000, and a leg for each arc.
pub fn load_map(map: &mut Map, file: &[u8]) -> Result<(), Refusal>
    ensures answer { result ≡ done (scanned anywhere file.now) }
    ensures after { MapAfter (scanned anywhere file.now) map.old map.new }
    ensures document { LoadsMap file.now result map.new }
{
    redraw(map, file)
}

// A node is seated with its id as its site; the file's test saw to it that it is not refused.
fn seat_node<R: Ruler>(sheet: &mut Sheet<R>, node: &Node)
    ensures ledger { ledger_of sheet.new.net ≡ fed (R.meaning sheet.old.ruler) (ledger_of sheet.old.net) (seat_call node.now) }
    ensures plan { sheet.new.net.plan ≡ unless (asked (R.meaning sheet.old.ruler) (ledger_of sheet.old.net) (seat_call node.now)) sheet.old.net.plan None }
    ensures same { sheet.new.ruler ≡ sheet.old.ruler }
{
    let _ = sheet.seat(node.id, node.id, node.flow);
}

fn seat_nodes<R: Ruler>(sheet: &mut Sheet<R>, nodes: &[Node])
    ensures after { Seated (R.meaning sheet.old.ruler) sheet.old.net sheet.new.net (seats_of nodes.now) }
    ensures same { sheet.new.ruler ≡ sheet.old.ruler }
{
    for node in nodes {
        seat_node(sheet, node);
    }
}

// Tests the file, and then seats its nodes.
fn fill<R: Ruler>(sheet: &mut Sheet<R>, file: &[u8]) -> Result<(), Refusal>
    ensures answer { result ≡ done (scanned (R.meaning sheet.old.ruler).known file.now) }
    ensures after { NetAfter (R.meaning sheet.old.ruler) (scanned (R.meaning sheet.old.ruler).known file.now) sheet.old.net sheet.new.net }
    ensures document { LoadsSheet (R.meaning sheet.old.ruler) file.now result sheet.old.net sheet.new.net }
    ensures same { sheet.new.ruler ≡ sheet.old.ruler }
{
    let draft = scan(file, sheet)?;
    seat_nodes(sheet, draft.nodes());
    Ok(())
}

// Fills a sheet without terminals with those of a file.
pub fn load_sheet<R: Ruler>(sheet: &mut Sheet<R>, file: &[u8]) -> Result<(), Refusal>
    ensures answer { result ≡ done (sheet_scanned (R.meaning sheet.old.ruler) sheet.old.net.table.rows file.now) }
    ensures after { NetAfter (R.meaning sheet.old.ruler) (sheet_scanned (R.meaning sheet.old.ruler) sheet.old.net.table.rows file.now) sheet.old.net sheet.new.net }
    ensures document { LoadsSheet (R.meaning sheet.old.ruler) file.now result sheet.old.net sheet.new.net }
    ensures same { sheet.new.ruler ≡ sheet.old.ruler }
    ensures law { Lawful (R.meaning sheet.new.ruler) sheet.new.net }
{
    if !sheet.is_bare() {
        return Err(Fault::SheetInUse.at(0, 0));
    }
    fill(sheet, file)
}
