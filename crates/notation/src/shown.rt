// Operations whose values can be shown.
ghost use Rattle.std.specs.Prelude.{◌≡◌, ℕ, List, ◌++◌, IfOk, string_bytes, codes, decimal};

use operation::{Count, Flags, Operation, Pair, Peak, Total};
use std::alloc::{AllocError, Global};

// An operation whose values have a text. `shown` says which. (No `Display`: the values are numbers and pairs, which are not ours.)
pub trait Shown: Operation {
    ghost shown: { Self.Value → List ℕ };

    fn show(value: Self::Value, heap: Global) -> Result<String, AllocError>
        ensures { IfOk result (λ s. string_bytes s ≡ shown value) };
}

impl Shown for Total {
    ghost shown = { λ count. decimal count.bits };

    fn show(value: Count, heap: Global) -> Result<String, AllocError> {
        let bits = value.get();
        format!(in heap; "{bits}")
    }
}

impl Shown for Peak {
    ghost shown = { decimal };

    fn show(value: u64, heap: Global) -> Result<String, AllocError> {
        format!(in heap; "{value}")
    }
}

// One line as that of `Peak`: a helper for both would be no shorter.
impl Shown for Flags {
    ghost shown = { decimal };

    fn show(value: u16, heap: Global) -> Result<String, AllocError> {
        format!(in heap; "{value}")
    }
}

// The texts of the two parts, with a space between them.
impl<A: Shown, B: Shown> Shown for Pair<A, B> {
    ghost shown = { λ pair. A.Shown.shown pair.0 ++ (codes " " ++ B.Shown.shown pair.1) };

    fn show(value: (A::Value, B::Value), heap: Global) -> Result<String, AllocError> {
        let first = A::show(value.0, heap)?;
        let second = B::show(value.1, heap)?;
        format!(in heap; "{first} {second}")
    }
}
