// Which sites a load may seat a terminal on.
ghost use Rattle.std.specs.Prelude.{◌≡◌, ℕ, Bool, true};

use ruler::ruler::Ruler;
use sheet::sheet::Sheet;

pub trait Sites {
    ghost known: { Self → ℕ → Bool };

    fn knows(&self, site: u32) -> bool
        ensures { result ≡ known self.now site };
}

// A map is loaded before any sheet stands over it, so nothing is asked of its sites here.
#[derive(Clone, Copy)]
pub struct Anywhere;

impl Sites for Anywhere {
    ghost known = { λ _ _. true };

    fn knows(&self, _site: u32) -> bool {
        true
    }
}

impl<R: Ruler> Sites for Sheet<R> {
    ghost known = { λ s. (R.Ruler.meaning s.ruler).known };

    fn knows(&self, site: u32) -> bool {
        Sheet::knows(self, site)
    }
}
