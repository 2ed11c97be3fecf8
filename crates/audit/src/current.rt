// Which currents a terminal may have.
ghost use Rattle.std.specs.Prelude.{◌≡◌};
ghost use Rattle.audit.specs.Questions.{allowed};

// From −1,000,000 to 1,000,000, and not 0.
pub fn is_allowed(current: i64) -> bool
    ensures { result ≡ allowed current }
{
    current != 0 && (-1_000_000..=1_000_000).contains(&current)
}
