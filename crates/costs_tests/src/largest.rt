// Pairs of the largest cost and the total: joining them does not keep "no more than", so they are no cost.
ghost use Rattle.std.specs.Prelude.{◌≡◌, ◌+◌, ◌^◌, ◌<◌};
ghost use Rattle.costs_tests.specs.Largest.{paired, precedes, Unlawful};

#[derive(Clone, Copy, PartialEq, Eq, PartialOrd, Ord)]
pub struct Pair {
    pub largest: u32,
    pub total: u32,
}

impl Pair {
    pub fn join(self, other: Pair) -> Pair
        requires { self.total + other.total < 2 ^ 32 }
        ensures { result ≡ paired self other }
    {
        Pair {
            largest: self.largest.max(other.largest),
            total: self.total + other.total,
        }
    }

    pub fn no_more(self, other: Pair) -> bool
        ensures { result ≡ precedes self other }
    {
        self <= other
    }

    // No lawful cost joins and compares like this.
    pub fn is_no_cost()
        ensures { Unlawful }
    {}
}
