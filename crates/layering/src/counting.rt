// A layer that counts the calls that get through it: a model for layers of one's own.
// A layer says by `meaning` which list of values its callers see; the trait's clauses then say all that a caller may lean on.
ghost use Rattle.std.specs.Prelude.{◌≡◌, false, is_ok, slice_set};
ghost use Rattle.operation.specs.Algebra.{applied};
ghost use Rattle.memory.specs.Homes.{loaded, placed};
ghost use Rattle.layering.specs.Traffic.{none, one_load, one_store, one_apply};

use memory::{Home, Refusal};
use operation::Operation;

// How many calls of each kind were accepted. A count that is full stays so.
#[derive(Clone, Copy, PartialEq, Eq, Debug, Default)]
pub struct Counts {
    pub loads: u64,
    pub stores: u64,
    pub applies: u64,
}

// Any home, with a count of what reached it.
#[derive(Drop)]
pub struct Counting<H> {
    below: H,
    counts: Counts,
}

impl<H> Counting<H> {
    // The home, with nothing counted yet.
    pub fn over(below: H) -> Counting<H>
        ensures below { result.below ≡ below }
        ensures counts { result.counts ≡ none }
    {
        Counting {
            below,
            counts: Counts::default(),
        }
    }

    // What was counted so far.
    pub fn counts(&self) -> Counts
        ensures { result ≡ self.now.counts }
    {
        self.counts
    }

    // The home again, and what was counted.
    pub fn into_parts(self) -> (H, Counts)
        ensures { result ≡ (self.below, self.counts) }
    {
        let Counting { below, counts } = self;
        (below, counts)
    }
}

// Each method passes the call on and counts it if it was accepted.
// The clauses `value`, `after` and `unmoved` are the trait's, and `counts` is this layer's own.
impl<O: Operation, H: Home<O>> Home<O> for Counting<H> {
    ghost meaning = { λ s. H.Home.meaning s.below };

    fn cells(&self) -> usize {
        self.below.cells()
    }

    fn load(&mut self, place: usize) -> Result<O::Value, Refusal>
        ensures value { result ≡ loaded (H.Home.meaning self.old.below) place }
        ensures after { H.Home.meaning self.new.below ≡ H.Home.meaning self.old.below }
        ensures unmoved { is_ok result ≡ false → self.new ≡ self.old }
        ensures counts { self.new.counts ≡ one_load (is_ok result) self.old.counts }
    {
        let value = self.below.load(place)?;
        self.counts.loads = self.counts.loads.saturating_add(1);
        Ok(value)
    }

    fn store(&mut self, place: usize, value: O::Value) -> Result<(), Refusal>
        ensures value { result ≡ placed (H.Home.meaning self.old.below) place }
        ensures after { H.Home.meaning self.new.below ≡ slice_set (H.Home.meaning self.old.below) place value }
        ensures unmoved { is_ok result ≡ false → self.new ≡ self.old }
        ensures counts { self.new.counts ≡ one_store (is_ok result) self.old.counts }
    {
        self.below.store(place, value)?;
        self.counts.stores = self.counts.stores.saturating_add(1);
        Ok(())
    }

    fn apply(&mut self, place: usize, partial: O::Partial) -> Result<(), Refusal>
        ensures value { result ≡ placed (H.Home.meaning self.old.below) place }
        ensures after { H.Home.meaning self.new.below ≡ applied O.Operation.algebra (H.Home.meaning self.old.below) place partial }
        ensures unmoved { is_ok result ≡ false → self.new ≡ self.old }
        ensures counts { self.new.counts ≡ one_apply (is_ok result) self.old.counts }
    {
        self.below.apply(place, partial)?;
        self.counts.applies = self.counts.applies.saturating_add(1);
        Ok(())
    }
}
