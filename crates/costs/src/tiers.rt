// The tiers: a sum for tier 0 and a sum for tier 1; the first decides, and the second breaks ties.
ghost use Rattle.std.specs.Prelude.{◌*◌};
ghost use Rattle.costs.specs.Tiered.{totals, tiered, added, precedes, tier_share};
ghost use Rattle.std.proofs.Common.{mul-le-mul_left, mul-le-mul, rules};

use crate::cost::Cost;

#[derive(Clone, Copy)]
pub struct Tiers;

// Totals compare as their derived order says: by the first, and on a tie by the second.
#[derive(Clone, Copy, PartialEq, Eq, PartialOrd, Ord, Debug)]
pub struct Totals {
    pub first: u64,
    pub second: u64,
}

impl Cost for Tiers {
    type Value = Totals;

    ghost number = { 1 };

    ghost prices = { λ _. record { nothing = totals 0 0; single = λ weight tier response. tiered tier (weight * response); joined = added; no_more = precedes; numbers = λ a. (a.first, a.second); covered = tier_share } };

    ghost coded = { Prim.search rules };

    ghost lawful = { λ x. Prim.search (rules, mul-le-mul, mul-le-mul_left) };

    fn code(&self) -> u8 {
        1
    }

    // Both zeros stand here, as in the definition of the cost of no task: a derived Default would be one place more to look at.
    fn none(&self) -> Totals {
        Totals {
            first: 0,
            second: 0,
        }
    }

    fn one(&self, weight: u16, tier: u8, response: u32) -> Totals {
        let cost = u64::from(weight) * u64::from(response);
        if tier == 0 {
            Totals {
                first: cost,
                second: 0,
            }
        } else {
            Totals {
                first: 0,
                second: cost,
            }
        }
    }

    fn join(&self, a: Totals, b: Totals) -> Totals {
        Totals {
            first: a.first + b.first,
            second: a.second + b.second,
        }
    }

    fn no_more(&self, a: Totals, b: Totals) -> bool {
        a <= b
    }

    fn shown(&self, a: Totals) -> (u64, u64) {
        (a.first, a.second)
    }
}
