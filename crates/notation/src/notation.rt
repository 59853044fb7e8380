// Operations whose values and partials can be written.
ghost use Rattle.std.specs.Prelude.{◌≡◌, ℕ, ◌-◌, ◌^◌, List, decimal, Result};
ghost use Rattle.notation.specs.declared.number.Misread.{Misread};
ghost use Rattle.notation.specs.Scales.{natural, counts, deltas, Reads};

use super::{Misread, Shown, read};
use operation::{Count, Delta, Flags, Peak, Total};

// An operation whose values and partials can be read from a field too.
// `valued` and `partialed` say what a field is read as.
pub trait Notation: Shown {
    ghost valued: { List ℕ → Result Self.Value Misread → Type 0 };

    ghost partialed: { List ℕ → Result Self.Partial Misread → Type 0 };

    // What a cell holds that nothing has happened to.
    fn zero() -> Self::Value
        ensures { Self.shown result ≡ decimal 0 };

    fn read_value(field: &str) -> Result<Self::Value, Misread>
        ensures { valued field.now result };

    fn read_partial(field: &str) -> Result<Self::Partial, Misread>
        ensures { partialed field.now result };
}

impl Notation for Total {
    ghost valued = { Reads counts };

    ghost partialed = { Reads deltas };

    fn zero() -> Count {
        Count::new(0)
    }

    fn read_value(field: &str) -> Result<Count, Misread> {
        Ok(Count::new(read(field)?))
    }

    fn read_partial(field: &str) -> Result<Delta, Misread> {
        Ok(Delta::new(read(field)?))
    }
}

// Peak and Flags differ in their numbers' type alone; what is left of each is two calls of the generic `read`.
impl Notation for Peak {
    ghost valued = { Reads (natural (2 ^ 64 - 1)) };

    ghost partialed = { Reads (natural (2 ^ 64 - 1)) };

    fn zero() -> u64 {
        0
    }

    fn read_value(field: &str) -> Result<u64, Misread> {
        read(field)
    }

    fn read_partial(field: &str) -> Result<u64, Misread> {
        read(field)
    }
}

impl Notation for Flags {
    ghost valued = { Reads (natural (2 ^ 16 - 1)) };

    ghost partialed = { Reads (natural (2 ^ 16 - 1)) };

    fn zero() -> u16 {
        0
    }

    fn read_value(field: &str) -> Result<u16, Misread> {
        read(field)
    }

    fn read_partial(field: &str) -> Result<u16, Misread> {
        read(field)
    }
}
