// What is asked: how much each source has, how much each sink wants, and what a unit costs from one to the other.
ghost use Rattle.std.specs.Prelude.{◌≡◌, ◌+◌, ◌*◌, ◌≤◌, length, sum, slice_range};
ghost use Rattle.std.specs.List.{list_all, range_with_len};
ghost use Rattle.transport.specs.Transport.{within};
ghost use Rattle.transport.specs.Limits.{fit};

// The cost from source i to sink j stands at 64 * i + j: callers fill this table in, so it keeps its form. What stands
// past the sources and the sinks is not read.
#[derive(Clone, Copy)]
pub struct Case {
    pub sources: usize,
    pub sinks: usize,
    pub supply: [u32; 64],
    pub demand: [u32; 64],
    pub cost: [u32; 4096],
}

fn fit(numbers: &[u32], most: u32) -> bool
    ensures { result ≡ fit numbers.now most }
{
    numbers.iter().all(|number| *number <= most)
}

fn total(amounts: &[u32]) -> u64
    requires { length amounts.now ≤ 64 }
    ensures { result ≡ sum amounts.now }
{
    amounts.iter().map(|amount| u64::from(*amount)).sum()
}

impl Case {
    fn costs_fit(&self) -> bool
        requires { (self.now.sources ≤ 64) × (self.now.sinks ≤ 64) }
        ensures { result ≡ list_all (λ i. fit (slice_range self.now.cost (64 * i) (64 * i + self.now.sinks)) 4000000) (range_with_len 0 self.now.sources) }
    {
        (0..self.sources).all(|i| fit(&self.cost[64 * i..64 * i + self.sinks], 4_000_000))
    }

    // Whether the case is within the limits, so that it has a plan.
    pub fn is_within(&self) -> bool
        ensures { result ≡ within self.now }
    {
        self.sources <= 64
            && self.sinks <= 64 - self.sources
            && fit(&self.supply[..self.sources], 1_000_000)
            && fit(&self.demand[..self.sinks], 1_000_000)
            && self.costs_fit()
            && total(&self.supply[..self.sources]) == total(&self.demand[..self.sinks])
    }
}
