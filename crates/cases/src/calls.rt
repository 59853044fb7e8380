// The calls of the cases, made on a bench of a total that goes round, over plain cells.
ghost use Rattle.operation.specs.Total.{totals};
ghost use Rattle.victim.specs.Rotating.{rotating};
ghost use Rattle.bench.specs.Lent.{SameLoans, seen};
ghost use Rattle.protocol.specs.Calls.{Takes};
ghost use Rattle.cases.specs.Benches.{asked, cells_of};

use answers::{of_advance, of_collect, of_post, of_yield};
use memory::PlainCells;
use model::Answer;
use operation::{Count, Delta, Total};
use protocol::{Bench, advance, collect, post, relinquish};
use tables::Request;
use victim::Rotate;

// A call of a case. None is a settle: that would take the ticket, and a case keeps its own to the end.
#[derive(Clone, Copy)]
pub enum Call {
    Post(usize, Request<Count, Delta>),
    Advance(usize),
    Collect(usize),
    Yield(usize, usize),
}

// Makes the call: exactly the step of the rules.
pub fn answer(bench: &mut Bench<'_, Total, PlainCells<Total>, Rotate>, call: Call) -> Answer<Count>
    ensures step { Takes totals rotating bench.old.ways (asked call) (seen cells_of bench.old) (seen cells_of bench.new) result }
    ensures lent { SameLoans bench.old bench.new }
{
    match call {
        Call::Post(party, request) => of_post(post(bench, party, request)),
        Call::Advance(cell) => of_advance(advance(bench, cell)),
        Call::Collect(party) => of_collect(collect(bench, party)),
        Call::Yield(party, cell) => of_yield(relinquish(bench, party, cell)),
    }
}
