// Why a listing was refused: each refusal has a number, and a place that it speaks of.
ghost use Rattle.std.specs.Prelude.{◌≡◌, Some};
ghost use Rattle.audit.specs.Refusals.{shown};
ghost use Rattle.listing.specs.Refusals.{number_of, place_of};

use std::fmt;
use std::fmt::Display;

#[derive(Clone, Copy, PartialEq, Eq, Debug)]
pub enum Refusal {
    NotPlanned,
    TextTooLong,
}

impl Refusal {
    pub fn number(&self) -> u32
        ensures { result ≡ number_of self.now }
    {
        match *self {
            Refusal::NotPlanned => 7,
            Refusal::TextTooLong => 31,
        }
    }

    pub fn place(&self) -> u32
        ensures { result ≡ place_of self.now }
    {
        match *self {
            Refusal::NotPlanned | Refusal::TextTooLong => 0,
        }
    }
}

impl Display for Refusal {
    ghost output = { λ refusal. Some (shown (number_of refusal)) };

    fn fmt<W: fmt::Write>(&self, f: &mut fmt::Formatter<W>) -> fmt::Result {
        write!(f, "refused {}", self.number())
    }
}
