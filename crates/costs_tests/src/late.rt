// A cost of its own: the number of tasks whose response time is above a limit.
ghost use Rattle.std.specs.Prelude.{◌+◌, if◌then◌else◌, nat_lt, nat_le};
ghost use Rattle.std.proofs.Common.{rules};

use costs::cost::Cost;

#[derive(Clone, Copy)]
pub struct Late {
    pub limit: u32,
}

impl Cost for Late {
    type Value = u32;

    ghost number = { 2 };

    ghost prices = { λ x. record { nothing = 0; single = λ _ _ response. (if nat_lt x.limit response then 1 else 0); joined = ◌+◌; no_more = nat_le; numbers = λ a. (a, 0); covered = λ a. a } };

    ghost coded = { Prim.search rules };

    ghost lawful = { Prim.search rules };

    fn code(&self) -> u8 {
        2
    }

    fn none(&self) -> u32 {
        0
    }

    fn one(&self, _weight: u16, _tier: u8, response: u32) -> u32 {
        if self.limit < response { 1 } else { 0 }
    }

    fn join(&self, a: u32, b: u32) -> u32 {
        a + b
    }

    fn no_more(&self, a: u32, b: u32) -> bool {
        a <= b
    }

    fn shown(&self, a: u32) -> (u64, u64) {
        (u64::from(a), 0)
    }
}
