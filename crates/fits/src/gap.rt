// The gap that a walk over the ranges holds.
#![tactic(auto)]

ghost use Rattle.std.specs.Prelude.{◌≡◌, ◌≤◌, ◌-◌, leb};

// The numbers low..high, of which no range has any.
#[derive(Clone, Copy)]
pub struct Gap {
    pub low: u64,
    pub high: u64,
    pub ghost ordered: { low ≤ high },
}

impl Gap {
    // Whether it has at most less + 1 numbers.
    pub(crate) fn within(self, less: u64) -> bool
        ensures { result ≡ leb (self.high - self.low) less }
    {
        self.high - self.low <= less
    }
}
