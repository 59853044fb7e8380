// Homes: the memory below the directory.
#![tactic(auto)]

ghost use Rattle.std.specs.Prelude.{◌≡◌, ℕ, ◌≤◌, false, List, length, is_ok, slice_set};
ghost use Rattle.operation.specs.Algebra.{applied};
ghost use Rattle.memory.specs.Homes.{number_of, loaded, placed};

use operation::Operation;

mod combining;
mod plain;

pub use combining::{Combining, Pending};
pub use plain::PlainCells;

// Why a home refuses.
#[derive(Clone, Copy, PartialEq, Eq, Debug)]
pub enum Refusal {
    // The place is outside the home's cells.
    Place = 13,
}

impl Refusal {
    // The number under which the refusal is known.
    pub fn number(self) -> u8
        ensures { result ≡ number_of self }
    {
        self as u8
    }
}

// A memory of cells, by its meaning: the list of their values, at most 65,536 and always as many.
// Whatever a layer holds back, moves or gathers, its callers see the meaning alone.
// A refused call leaves the home itself as it was.
pub trait Home<O: Operation> {
    ghost meaning: { Self → List O.Value };

    // The number of cells.
    fn cells(&self) -> usize
        ensures value { result ≡ length (meaning self.now) }
        ensures few { result ≤ 65536 };

    // The value at a place. A layer may move what it holds, so the home is lent to be changed.
    fn load(&mut self, place: usize) -> Result<O::Value, Refusal>
        ensures value { result ≡ loaded (meaning self.old) place }
        ensures after { meaning self.new ≡ meaning self.old }
        ensures unmoved { is_ok result ≡ false → self.new ≡ self.old };

    // Puts a value at a place.
    fn store(&mut self, place: usize, value: O::Value) -> Result<(), Refusal>
        ensures value { result ≡ placed (meaning self.old) place }
        ensures after { meaning self.new ≡ slice_set (meaning self.old) place value }
        ensures unmoved { is_ok result ≡ false → self.new ≡ self.old };

    // Lets a partial act on the value at a place.
    fn apply(&mut self, place: usize, partial: O::Partial) -> Result<(), Refusal>
        ensures value { result ≡ placed (meaning self.old) place }
        ensures after { meaning self.new ≡ applied O.Operation.algebra (meaning self.old) place partial }
        ensures unmoved { is_ok result ≡ false → self.new ≡ self.old };
}

#[cfg(test)]
mod tests {
    use super::*;
    use operation::Peak;
    use std::test::Fail;

    #[test]
    fn a_store_forgets_what_is_held(rt: HostRuntime) -> Result<(), Fail> {
        let cells = PlainCells::<Peak>::new(vec![in rt.alloc(); 10]?);
        let mut home = Combining::<Peak, _>::over(cells);
        home.apply(0, 12)?;
        home.store(0, 9)?;
        assert_eq!(rt; home.load(0)?, 9);
        Ok(())
    }

    fn played<H: Home<Peak>>(home: &mut H) -> Result<(u64, u64), Refusal> {
        home.apply(0, 12)?;
        home.apply(1, 30)?;
        home.apply(0, 11)?;
        Ok((home.load(0)?, home.load(1)?))
    }

    #[test]
    fn two_registers_agree_with_plain_cells(rt: HostRuntime) -> Result<(), Fail> {
        let mut plain = PlainCells::<Peak>::new(vec![in rt.alloc(); 10, 20]?);
        let below = PlainCells::<Peak>::new(vec![in rt.alloc(); 10, 20]?);
        let lower = Combining::<Peak, _>::over(below);
        let mut upper = Combining::<Peak, _>::over(lower);
        assert_eq!(rt; played(&mut plain)?, (12, 30));
        assert_eq!(rt; played(&mut upper)?, (12, 30));
        Ok(())
    }
}
