// Why a file was refused, and where: its line, from 1, and the word at fault in it, or 0.
ghost use Rattle.std.specs.Prelude.{◌≡◌};
ghost use Rattle.reader.specs.Refusals.{number_of, place_of, refused};
ghost use Rattle.reader.specs.declared.refusal.Fault.TheVariants.{Leg, Terminal};

#[derive(Clone, Copy, PartialEq, Eq, Debug)]
pub enum Fault {
    SheetInUse,
    FileForm,
    LineKind,
    LineWords,
    LineOrder,
    ProblemLine,
    SiteOutOfRange,
    ArcBounds,
    ArcCount,
    // A terminal that seat would refuse, and a leg that is too long.
    Terminal(audit::refusal::Refusal),
    Leg(ruler::refusal::Refusal),
}

#[derive(Clone, Copy, PartialEq, Eq, Debug)]
pub struct Refusal {
    pub fault: Fault,
    pub line: usize,
    pub word: usize,
}

impl Fault {
    // The refusal for this fault, at a line and a word of it.
    pub fn at(self, line: usize, word: usize) -> Refusal
        ensures { result ≡ refused self line word }
    {
        Refusal {
            fault: self,
            line,
            word,
        }
    }
}

impl From<audit::refusal::Refusal> for Fault {
    ghost from_gives = { λ terminal fault. fault ≡ Terminal terminal };

    fn from(terminal: audit::refusal::Refusal) -> Fault {
        Fault::Terminal(terminal)
    }
}

impl From<ruler::refusal::Refusal> for Fault {
    ghost from_gives = { λ leg fault. fault ≡ Leg leg };

    fn from(leg: ruler::refusal::Refusal) -> Fault {
        Fault::Leg(leg)
    }
}

impl Refusal {
    pub fn number(&self) -> u32
        ensures { result ≡ number_of self.now.fault }
    {
        match self.fault {
            Fault::SheetInUse => 22,
            Fault::FileForm => 23,
            Fault::LineKind => 24,
            Fault::LineWords => 25,
            Fault::LineOrder => 26,
            Fault::ProblemLine => 27,
            Fault::SiteOutOfRange => 28,
            Fault::ArcBounds => 29,
            Fault::ArcCount => 30,
            Fault::Terminal(refusal) => refusal.number(),
            Fault::Leg(refusal) => refusal.number(),
        }
    }

    pub fn place(&self) -> u32
        ensures { result ≡ place_of self.now.fault }
    {
        match self.fault {
            Fault::Terminal(refusal) => refusal.place(),
            _ => 0,
        }
    }
}
