// The flags raised so far, a bit for each.
ghost use Rattle.std.specs.Prelude.{bit_or};
ghost use Rattle.std.proofs.lemmas.Nat.{or_comm};
ghost use Rattle.std.specs.Int.Bits.{or_zero_r};
ghost use Rattle.operation.specs.Bits.{or_assoc};
ghost use Rattle.std.proofs.Common.{sym, rules};

use super::Operation;

#[derive(Drop)]
pub struct Flags;

impl Operation for Flags {
    type Value = u16;

    type Partial = u16;

    ghost algebra = { record { neutral = 0; join = bit_or; act = bit_or } };

    ghost assoc = { or_assoc };

    ghost comm = { or_comm };

    ghost unit = { Prim.search rules };

    ghost still = { or_zero_r };

    ghost twice = { λ v a b. sym (or_assoc v a b) };

    fn neutral() -> u16 {
        0
    }

    fn join(a: u16, b: u16) -> u16 {
        a | b
    }

    fn act(value: u16, partial: u16) -> u16 {
        value | partial
    }
}
