// A pile of layers over plain cells, with a count of what reaches the cells.
ghost use Rattle.std.specs.Prelude.{◌≡◌};
ghost use Rattle.memory.specs.Register.{acting};
ghost use Rattle.memory.specs.Row.{counted};

use layering::Counting;
use memory::{Combining, Home, Pending, PlainCells};
use operation::Operation;

// The cells with the count alone.
pub type Bare<O> = Counting<PlainCells<O>>;

// Layers over counted cells, which a play may begin on and end.
pub trait Pile<O: Operation>: Home<O> + Drop {
    // The pile over a row, which means what the row does.
    fn on_row(row: Vec<O::Value>) -> Self
        ensures { Self.Home.meaning result ≡ counted row.items };

    // The cells and the count, once they have what the layers above them held.
    fn drained(self) -> Bare<O>
        ensures { counted result.below.row.items ≡ Self.Home.meaning self };
}

impl<O: Operation> Pile<O> for Bare<O> {
    fn on_row(row: Vec<O::Value>) -> Bare<O>
        ensures { counted result.below.row.items ≡ counted row.items }
    {
        Counting::over(PlainCells::new(row))
    }

    fn drained(self) -> Bare<O> {
        self
    }
}

impl<O: Operation, P: Pile<O>> Pile<O> for Combining<O, P> {
    fn on_row(row: Vec<O::Value>) -> Combining<O, P>
        ensures { acting O.Operation.algebra (P.Home.meaning result.below) result.held ≡ counted row.items }
    {
        Combining::over(P::on_row(row))
    }

    fn drained(self) -> Bare<O> {
        drained(self).drained()
    }
}

// The home below a register, once it has what the register held.
pub fn drained<O: Operation, H: Home<O>>(register: Combining<O, H>) -> H
    ensures { H.Home.meaning result ≡ acting O.Operation.algebra (H.Home.meaning register.below) register.held }
{
    let (mut below, held) = register.into_parts();
    if let Some(Pending { place, partial }) = held {
        // Refused, it would have acted on no cell.
        let _ = below.apply(place, partial);
    }
    below
}
