// A map is begun without legs, and takes one leg after another.
ghost use Rattle.std.specs.Prelude.{◌≡◌, [], MatchResult};
ghost use Rattle.ruler.specs.Map.{Lengthened, Stands, begin_outcome, leg_of, leg_outcome};

use crate::map::Map;
use crate::refusal::Refusal;

impl Map {
    // A map that was never begun knows no site.
    pub fn empty() -> Map
        ensures none { result.sites ≡ 0 }
        ensures bare { Stands result 0 0 [] }
    {
        Map::bare(0, 0)
    }

    // Replaces the map by one of n sites without legs.
    pub fn begin(&mut self, n: u32, ring: u32) -> Result<(), Refusal>
        ensures answer { result ≡ begin_outcome n ring }
        ensures after { MatchResult result (λ _. Stands self.new n ring []) (λ _. self.new ≡ self.old) }
    {
        if n < 1 || 64 < n {
            return Err(Refusal::SiteCount);
        }
        if ring < 1 || 4_000_000 < ring {
            return Err(Refusal::RingOutOfRange);
        }
        self.renew(n, ring);
        Ok(())
    }

    // Adds a one-way leg.
    pub fn leg(&mut self, from: u32, to: u32, length: u32) -> Result<(), Refusal>
        ensures answer { result ≡ leg_outcome self.old.sites from to length }
        ensures after { MatchResult result (λ _. Lengthened self.old self.new (leg_of from to length)) (λ _. self.new ≡ self.old) }
    {
        if !self.knows(from) || !self.knows(to) {
            return Err(Refusal::LegSite);
        }
        if 4_000_000 < length {
            return Err(Refusal::LegTooLong);
        }
        self.lay(from, to, length);
        Ok(())
    }
}
