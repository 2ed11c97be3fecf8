// A ruler by its meaning; whatever stands above is proved once, for every ruler.
ghost use Rattle.std.specs.Prelude.{◌≡◌};
ghost use Rattle.ruler.specs.Meaning.{Meaning, Metric, measured};

pub trait Ruler {
    // The known sites and their lengths.
    ghost meaning: { Self → Meaning };

    fn known(&self, site: u32) -> bool
        ensures { result ≡ (meaning self.now).known site };

    // The length of a wire, absent exactly when one of the two sites is unknown.
    fn length(&self, from: u32, to: u32) -> Option<u32>
        ensures { result ≡ measured (meaning self.now) from to };

    ghost metric: { (r : Self) → Metric (meaning r) };
}
