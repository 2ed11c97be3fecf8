// Why a ruler was refused: each refusal has a number, and its place is always 0.
ghost use Rattle.std.specs.Prelude.{◌≡◌};
ghost use Rattle.ruler.specs.Refusals.{number_of, place_of};

#[derive(Clone, Copy, PartialEq, Eq, Debug)]
pub enum Refusal {
    SiteCount,
    RingOutOfRange,
    LegSite,
    LegTooLong,
    FactorOutOfRange,
    ViaOutOfRange,
}

impl Refusal {
    pub fn number(&self) -> u32
        ensures { result ≡ number_of self.now }
    {
        match *self {
            Refusal::SiteCount => 16,
            Refusal::RingOutOfRange => 17,
            Refusal::LegSite => 18,
            Refusal::LegTooLong => 19,
            Refusal::FactorOutOfRange => 20,
            Refusal::ViaOutOfRange => 21,
        }
    }

    pub fn place(&self) -> u32
        ensures { result ≡ place_of self.now }
    {
        0
    }
}
