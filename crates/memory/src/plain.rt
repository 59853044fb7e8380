// Plain cells: a handed row of values.
ghost use Rattle.std.specs.Prelude.{◌≡◌, false, is_ok, slice_set};
ghost use Rattle.operation.specs.Algebra.{applied};
ghost use Rattle.memory.specs.Homes.{loaded, placed};
ghost use Rattle.memory.specs.Row.{counted, beyond};

use super::{Home, Refusal};
use operation::Operation;

// The most values of a row that count.
const LIMIT: usize = 65536;

// A row of values, of which the first 65,536 count; what lies beyond is never touched.
#[derive(Drop)]
pub struct PlainCells<O: Operation> {
    row: Vec<O::Value>,
}

impl<O: Operation> PlainCells<O> {
    // The cells of a row.
    pub fn new(row: Vec<O::Value>) -> PlainCells<O>
        ensures { result.row ≡ row }
    {
        PlainCells { row }
    }

    // The row, with what it then holds.
    pub fn into_row(self) -> Vec<O::Value>
        ensures { result ≡ self.row }
    {
        let PlainCells { row } = self;
        row
    }
}

// A method with a clause of its own repeats those of the trait that do not follow from it.
impl<O: Operation> Home<O> for PlainCells<O> {
    ghost meaning = { λ s. counted s.row.items };

    #[tactic(auto, using(crate::proofs::Rows::cells))]
    fn cells(&self) -> usize {
        self.row.len().min(LIMIT)
    }

    fn load(&mut self, place: usize) -> Result<O::Value, Refusal>
        ensures value { result ≡ loaded (counted self.old.row.items) place }
        ensures same { self.new ≡ self.old }
    {
        if place < self.cells() {
            Ok(self.row[place])
        } else {
            Err(Refusal::Place)
        }
    }

    #[tactic(auto, using(crate::proofs::Rows::cells))]
    fn store(&mut self, place: usize, value: O::Value) -> Result<(), Refusal>
        ensures value { result ≡ placed (counted self.old.row.items) place }
        ensures after { counted self.new.row.items ≡ slice_set (counted self.old.row.items) place value }
        ensures unmoved { is_ok result ≡ false → self.new ≡ self.old }
        ensures untouched { beyond self.new.row.items ≡ beyond self.old.row.items }
    {
        if place < self.cells() {
            self.row[place] = value;
            Ok(())
        } else {
            Err(Refusal::Place)
        }
    }

    #[tactic(auto, using(crate::proofs::Rows::cells))]
    fn apply(&mut self, place: usize, partial: O::Partial) -> Result<(), Refusal>
        ensures value { result ≡ placed (counted self.old.row.items) place }
        ensures after { counted self.new.row.items ≡ applied O.Operation.algebra (counted self.old.row.items) place partial }
        ensures unmoved { is_ok result ≡ false → self.new ≡ self.old }
        ensures untouched { beyond self.new.row.items ≡ beyond self.old.row.items }
    {
        let value = self.load(place)?;
        self.store(place, O::act(value, partial))
    }
}
