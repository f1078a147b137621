// Numbers that look random and are the same in every run: a xorshift generator.
ghost use Rattle.std.specs.Prelude.{◌≤◌};

#[derive(Drop)]
pub struct Random {
    state: u64,
}

impl Random {
    pub fn new(seed: u64) -> Random {
        Random {
            state: seed.wrapping_mul(0x9E37_79B9_7F4A_7C15) | 1,
        }
    }

    fn next(&mut self) -> u64 {
        let mut x = self.state;
        x ^= x << 13;
        x ^= x >> 7;
        x ^= x << 17;
        self.state = x;
        x.wrapping_mul(0x2545_F491_4F6C_DD1D) >> 16
    }

    // A number from `low` to `high`, or `low` where there is none.
    pub fn between(&mut self, low: u64, high: u64) -> u64
        ensures { (low ≤ result) × ((low ≤ high → result ≤ high)) }
    {
        if high <= low {
            return low;
        }
        let span = (high - low).saturating_add(1);
        let above_low = self.next().checked_rem(span).unwrap_or(0);
        low.saturating_add(above_low).min(high)
    }

    // True once in `n` times.
    pub fn once_in(&mut self, n: u64) -> bool {
        self.between(1, n) == 1
    }
}
