// The interface of a cost.
ghost use Rattle.std.specs.Prelude.{◌≡◌, ℕ, ◌+◌, ◌<◌, ◌≤◌};
ghost use Rattle.costs.specs.Prices.{Prices, Lawful};

// A response test has a number and a code too: one trait over both would be one more to implement for each who writes a cost, and lengthen
// each clause that names the number.
pub trait Cost {
    type Value: Copy;

    ghost number: { ℕ };

    ghost prices: { Self → Prices Self.Value };

    // The cost's number in a packed table. An enum would close the set of costs, and a constant of the trait would need this method beside it.
    fn code(&self) -> u8
        ensures { result ≡ number };

    // The cost of no task.
    fn none(&self) -> Self::Value
        ensures { result ≡ (prices self.now).nothing };

    // The cost of one task, which may depend on these three numbers alone. The tier is a number, as in a task: an enum would ask more of callers.
    fn one(&self, weight: u16, tier: u8, response: u32) -> Self::Value
        ensures { result ≡ (prices self.now).single weight tier response };

    // The cost of the tasks of both.
    fn join(&self, a: Self::Value, b: Self::Value) -> Self::Value
        requires { (prices self.now).covered a + (prices self.now).covered b ≤ 16 }
        ensures { result ≡ (prices self.now).joined a b };

    fn no_more(&self, a: Self::Value, b: Self::Value) -> bool
        ensures { result ≡ (prices self.now).no_more a b };

    // The two numbers to show, as a pair: the definitions say it so, and clauses would turn a struct of both into it.
    fn shown(&self, a: Self::Value) -> (u64, u64)
        ensures { result ≡ (prices self.now).numbers a };

    ghost coded: { number < 4 };

    ghost lawful: { (x : Self) → Lawful (prices x) };
}
