// A ruler derated by a factor: the same sites, lengths that many times as long, up to 4,000,000.
ghost use Rattle.std.specs.Prelude.{◌≡◌};
ghost use Rattle.ruler.specs.Derated.{derated};
ghost use Rattle.ruler.specs.Derating.{derated_metric};

use crate::factor::Factor;
use crate::ruler::Ruler;

#[derive(Clone, Copy)]
pub struct Derated<R> {
    pub ruler: R,
    pub factor: Factor,
}

impl<R: Ruler> Derated<R> {
    pub fn over(ruler: R, factor: Factor) -> Derated<R>
        ensures ruler { result.ruler ≡ ruler }
        ensures factor { result.factor ≡ factor }
    {
        Derated { ruler, factor }
    }
}

impl<R: Ruler> Ruler for Derated<R> {
    ghost meaning = { λ d. derated d.factor.times (R.Ruler.meaning d.ruler) };

    ghost metric = { λ r. derated_metric r.factor.times (R.Ruler.meaning r.ruler) (R.Ruler.metric r.ruler) };

    fn known(&self, site: u32) -> bool {
        self.ruler.known(site)
    }

    fn length(&self, from: u32, to: u32) -> Option<u32> {
        let below = self.ruler.length(from, to)?;
        Some(self.factor.lengthen(below))
    }
}
