// A file's net, planned over its map.
ghost use Rattle.std.specs.Result.{MatchResult};
ghost use Rattle.listing.specs.Files.{Planned, Refused};

use dimacs::load::{load_map, load_sheet};
use reader::refusal::{Fault, Refusal};
use ruler::map::Map;
use sheet::sheet::Sheet;

// The map comes first, and then a sheet over it; the plan's refusal names no line.
pub fn plan_file(file: &[u8]) -> Result<Sheet<Map>, Refusal>
    ensures { MatchResult result (λ s. Planned file.now s.ruler s.net) (Refused file.now) }
{
    let mut map = Map::empty();
    load_map(&mut map, file)?;
    let mut sheet = Sheet::open(map);
    load_sheet(&mut sheet, file)?;
    sheet
        .plan()
        .map_err(|refusal| Fault::from(refusal).at(0, 0))?;
    Ok(sheet)
}
