// Update operations: a kind of value, a kind of partial update, and the laws between them.
#![tactic(auto)]

ghost use Rattle.std.specs.Prelude.{◌≡◌};
ghost use Rattle.operation.specs.Algebra.{Algebra};

mod count;
mod delta;
mod flags;
mod pair;
mod peak;
#[cfg(test)]
mod tests;
mod total;

pub use count::Count;
pub use delta::Delta;
pub use flags::Flags;
pub use pair::Pair;
pub use peak::Peak;
pub use total::Total;

// Updates that may be gathered apart from the value, in any order, and act on it later.
// An implementation says by `algebra` what its functions compute, and owes the five laws of it;
// code over any operation is proved from the laws alone.
pub trait Operation {
    type Value: Copy;

    type Partial: Copy;

    ghost algebra: { Algebra Self.Value Self.Partial };

    // The partial that changes nothing.
    fn neutral() -> Self::Partial
        ensures { result ≡ algebra.neutral };

    // Two partials as one.
    fn join(a: Self::Partial, b: Self::Partial) -> Self::Partial
        ensures { result ≡ algebra.join a b };

    // The value once the partial has acted on it.
    fn act(value: Self::Value, partial: Self::Partial) -> Self::Value
        ensures { result ≡ algebra.act value partial };

    ghost assoc: { (a b c : Self.Partial) → algebra.join a (algebra.join b c) ≡ algebra.join (algebra.join a b) c };

    ghost comm: { (a b : Self.Partial) → algebra.join a b ≡ algebra.join b a };

    ghost unit: { (a : Self.Partial) → algebra.join algebra.neutral a ≡ a };

    ghost still: { (v : Self.Value) → algebra.act v algebra.neutral ≡ v };

    ghost twice: { (v : Self.Value) (a b : Self.Partial) → algebra.act (algebra.act v a) b ≡ algebra.act v (algebra.join a b) };
}
