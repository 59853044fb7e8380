// Two operations side by side, each of which may be a pair itself.
ghost use Rattle.operation.specs.Pair.{paired};
ghost use Rattle.std.proofs.Common.{rules};

use super::Operation;
use std::marker::PhantomData;

#[derive(Drop)]
pub struct Pair<A, B> {
    parts: PhantomData<(A, B)>,
}

impl<A: Operation, B: Operation> Operation for Pair<A, B> {
    type Value = (A::Value, B::Value);

    type Partial = (A::Partial, B::Partial);

    ghost algebra = { paired A.Operation.algebra B.Operation.algebra };

    ghost assoc = { Prim.search rules };

    ghost comm = { Prim.search rules };

    ghost unit = { Prim.search rules };

    ghost still = { λ v i. (A.still v.0 i, B.still v.1 i) };

    ghost twice = { Prim.search rules };

    fn neutral() -> (A::Partial, B::Partial) {
        (A::neutral(), B::neutral())
    }

    fn join(a: (A::Partial, B::Partial), b: (A::Partial, B::Partial)) -> (A::Partial, B::Partial) {
        (A::join(a.0, b.0), B::join(a.1, b.1))
    }

    fn act(value: (A::Value, B::Value), partial: (A::Partial, B::Partial)) -> (A::Value, B::Value) {
        (A::act(value.0, partial.0), B::act(value.1, partial.1))
    }
}
