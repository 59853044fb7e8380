// The value of a total: a number kept modulo 2^32.
ghost use Rattle.std.specs.Prelude.{◌≡◌, ◌^◌, ◌<◌};

// The laws of a total hold of numbers in range alone, so the type carries the range. It is made and read by `new` and
// `get`, as the standard library's own wrappers of a number are: `u32::from(count)` would be no plainer.
#[derive(Clone, Copy, PartialEq, Eq, Debug)]
pub struct Count {
    bits: u32,
    ghost small: { bits < 2 ^ 32 },
}

impl Count {
    pub fn new(bits: u32) -> Count
        ensures { result.bits ≡ bits }
    {
        Count { bits }
    }

    pub fn get(self) -> u32
        ensures { result ≡ self.bits }
    {
        self.bits
    }
}
