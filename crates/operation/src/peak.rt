// The greatest number seen.
ghost use Rattle.std.specs.Prelude.{max};
ghost use Rattle.std.proofs.Common.{rules};

use super::Operation;

// `Flags` has other numbers, another join and another proof of each law: a type of its own for any such join, over a
// trait for the join, would be longer than the two.
#[derive(Drop)]
pub struct Peak;

impl Operation for Peak {
    type Value = u64;

    type Partial = u64;

    ghost algebra = { record { neutral = 0; join = max; act = max } };

    ghost assoc = { Prim.search rules };

    ghost comm = { Prim.search rules };

    ghost unit = { Prim.search rules };

    ghost still = { Prim.search rules };

    ghost twice = { Prim.search rules };

    fn neutral() -> u64 {
        0
    }

    fn join(a: u64, b: u64) -> u64 {
        a.max(b)
    }

    fn act(value: u64, partial: u64) -> u64 {
        value.max(partial)
    }
}
