// A running total, modulo 2^32.
ghost use Rattle.std.specs.Prelude.{◌≡◌, pos, ◌+ℤ◌};
ghost use Rattle.std.proofs.Common.{sym, ap, ◌∙◌, arith};
ghost use Rattle.std.proofs.Math.IntN.{+ℤ_assoc, +ℤ_comm, +ℤ_idl};
ghost use Rattle.operation.specs.Total.{counted, stepped, totals};
ghost use Rattle.std.specs.Int.{int_wrap, w32};
ghost use Rattle.std.proofs.lemmas.Int.{int_wrap-add_left, int_wrap-add_right, int_wrap_fits};
ghost use Rattle.operation.specs.Numbers.{same_delta, delta_fits, same_count};
ghost use Rattle.operation.specs.ResiduesLemmas.{residue_twice};

use super::{Count, Delta, Operation};

#[derive(Drop)]
pub struct Total;

impl Delta {
    // Both steps in one.
    fn plus(self, next: Delta) -> Delta
        ensures { result ≡ stepped (self.by +ℤ next.by) }
    {
        Delta::new(self.get().wrapping_add(next.get()))
    }
}

impl Count {
    // The count after a step.
    fn moved(self, step: Delta) -> Count
        ensures { result ≡ counted (pos self.bits +ℤ step.by) }
    {
        Count::new(self.get().wrapping_add_signed(step.get()))
    }
}

impl Operation for Total {
    type Value = Count;

    type Partial = Delta;

    ghost algebra = { totals };

    ghost assoc = { λ a b c.
        same_delta
        (int_wrap-add_right w32 a.by (b.by +ℤ c.by)
        ∙ ap (int_wrap w32) (sym (+ℤ_assoc a.by b.by c.by))
        ∙ sym (int_wrap-add_left w32 (a.by +ℤ b.by) c.by)) };

    ghost comm = { λ a b. ap stepped (+ℤ_comm a.by b.by) };

    ghost unit = { λ a.
        same_delta
        (ap (int_wrap w32) (+ℤ_idl a.by) ∙ int_wrap_fits w32 a.by (delta_fits a)) };

    ghost still = { λ v. same_count (omega arith) };

    ghost twice = { λ v a b. same_count (residue_twice (pos v.bits) a.by b.by) };

    fn neutral() -> Delta {
        Delta::ZERO
    }

    fn join(a: Delta, b: Delta) -> Delta {
        a.plus(b)
    }

    fn act(value: Count, partial: Delta) -> Count {
        value.moved(partial)
    }
}
