// The sum: weight times response, added.
ghost use Rattle.costs.specs.Prices.{sum_prices};
ghost use Rattle.std.proofs.Common.{mul-le-mul_left, mul-le-mul, rules};

use crate::cost::Cost;

#[derive(Clone, Copy)]
pub struct Sum;

impl Cost for Sum {
    type Value = u64;

    ghost number = { 0 };

    ghost prices = { λ _. sum_prices };

    ghost coded = { Prim.search rules };

    ghost lawful = { λ x. Prim.search (rules, mul-le-mul, mul-le-mul_left) };

    fn code(&self) -> u8 {
        0
    }

    fn none(&self) -> u64 {
        0
    }

    fn one(&self, weight: u16, _tier: u8, response: u32) -> u64 {
        u64::from(weight) * u64::from(response)
    }

    fn join(&self, a: u64, b: u64) -> u64 {
        a + b
    }

    fn no_more(&self, a: u64, b: u64) -> bool {
        a <= b
    }

    fn shown(&self, a: u64) -> (u64, u64) {
        (a, 0)
    }
}
