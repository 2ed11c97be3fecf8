// A factor comes from a check alone.
ghost use Rattle.std.specs.Prelude.{◌≡◌};
ghost use Rattle.ruler.specs.Derated.{checked_factor, factor_of, lengthened};

use crate::factor::Factor;
use crate::refusal::Refusal;

impl Factor {
    pub fn new(n: u32) -> Result<Factor, Refusal>
        ensures { factor_of result ≡ checked_factor n }
    {
        if 1 <= n && n <= 16 {
            Ok(Factor { times: n })
        } else {
            Err(Refusal::FactorOutOfRange)
        }
    }

    // The smaller of factor × length and 4,000,000; a length past that needs no product.
    pub(crate) fn lengthen(&self, length: u32) -> u32
        ensures { result ≡ lengthened self.now.times length }
    {
        if length <= 4_000_000 {
            (self.times * length).min(4_000_000)
        } else {
            4_000_000
        }
    }
}
