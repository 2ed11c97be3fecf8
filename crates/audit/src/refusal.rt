// Why a call was refused: each refusal has a number, and a place that it speaks of.
ghost use Rattle.std.specs.Prelude.{◌≡◌, Some};
ghost use Rattle.audit.specs.Refusals.{number_of, place_of, shown};

use std::fmt;
use std::fmt::Display;

#[derive(Clone, Copy, PartialEq, Eq, Debug)]
pub enum Refusal {
    IdOutOfRange { id: u32 },
    IdTaken { id: u32 },
    IdFree { id: u32 },
    CurrentOutOfRange { id: u32 },
    SiteUnknown { id: u32 },
    Unbalanced,
    NotPlanned,
    MarkCount,
    WireCount,
    WireCurrent { wire: u32 },
    WireSite { wire: u32 },
    MarkOutOfRange { id: u32 },
    Unmet { site: u32 },
    MarksApart { id: u32 },
    AreaDiffers,
}

impl Refusal {
    pub fn number(&self) -> u32
        ensures { result ≡ number_of self.now }
    {
        match *self {
            Refusal::IdOutOfRange { .. } => 1,
            Refusal::IdTaken { .. } => 2,
            Refusal::IdFree { .. } => 3,
            Refusal::CurrentOutOfRange { .. } => 4,
            Refusal::SiteUnknown { .. } => 5,
            Refusal::Unbalanced => 6,
            Refusal::NotPlanned => 7,
            Refusal::MarkCount => 8,
            Refusal::WireCount => 9,
            Refusal::WireCurrent { .. } => 10,
            Refusal::WireSite { .. } => 11,
            Refusal::MarkOutOfRange { .. } => 12,
            Refusal::Unmet { .. } => 13,
            Refusal::MarksApart { .. } => 14,
            Refusal::AreaDiffers => 15,
        }
    }

    pub fn place(&self) -> u32
        ensures { result ≡ place_of self.now }
    {
        match *self {
            Refusal::IdOutOfRange { id }
            | Refusal::IdTaken { id }
            | Refusal::IdFree { id }
            | Refusal::CurrentOutOfRange { id }
            | Refusal::SiteUnknown { id }
            | Refusal::MarkOutOfRange { id }
            | Refusal::MarksApart { id } => id,
            Refusal::WireCurrent { wire } | Refusal::WireSite { wire } => wire,
            Refusal::Unmet { site } => site,
            Refusal::Unbalanced
            | Refusal::NotPlanned
            | Refusal::MarkCount
            | Refusal::WireCount
            | Refusal::AreaDiffers => 0,
        }
    }
}

impl Display for Refusal {
    ghost output = { λ refusal. Some (shown (number_of refusal)) };

    fn fmt<W: fmt::Write>(&self, f: &mut fmt::Formatter<W>) -> fmt::Result {
        write!(f, "refused {}", self.number())
    }
}
