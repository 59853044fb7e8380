// The partial of a total: a step up or down, a signed number of 32 bits.
ghost use Rattle.std.specs.Prelude.{◌≡◌, ◌^◌, pos, neg_ℤ, ◌≤ℤ◌, ◌<ℤ◌};

// In range for the same reason as `Count`, and made and read as it is.
#[derive(Clone, Copy, PartialEq, Eq, Debug)]
pub struct Delta {
    by: i32,
    ghost least: { neg_ℤ (pos (2 ^ 31)) ≤ℤ by },
    ghost below: { by <ℤ pos (2 ^ 31) },
}

impl Delta {
    pub const ZERO: Delta = Delta { by: 0 };

    pub fn new(by: i32) -> Delta
        ensures { result.by ≡ by }
    {
        Delta { by }
    }

    pub fn get(self) -> i32
        ensures { result ≡ self.by }
    {
        self.by
    }
}
