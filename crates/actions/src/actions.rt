// The three actions of an advance.
ghost use Rattle.std.specs.Prelude.{◌≡◌, ◌+◌, ◌*◌, ◌/◌, ◌^◌, ◌<◌, ◌≤◌, length};
ghost use Rattle.tables.specs.Lines.{target};
ghost use Rattle.victim.specs.Rules.{Servable};
ghost use Rattle.model.specs.Steps.{turn_to};
ghost use Rattle.model.specs.Decisions.{performed};
ghost use Rattle.model.specs.declared.next.Next.TheVariants.{Recall, Evict, Grant};
ghost use Rattle.bench.specs.Lent.{SameLoans, Sendable, seen, terms};
ghost use Rattle.answers.specs.Answers.{advanced};

use super::granting::{add_holder, answer_to, new_line};
use super::send::send_line;
use answers::Advanced;
use bench::Bench;
use memory::Home;
use operation::Operation;
use tables::{Refusal, Register, Request};
use victim::Victim;

// The cell's turn is the party's.
fn give_turn<O: Operation, H: Home<O>, R: Victim>(
    bench: &mut Bench<'_, O, H, R>,
    cell: usize,
    party: usize,
)
    requires { cell < length bench.old.directory.now }
    ensures state { seen H.Home.meaning bench.new ≡ turn_to (terms O.Operation.algebra R.Victim.rule H.Home.meaning bench.old) (seen H.Home.meaning bench.old) cell party }
    ensures lent { SameLoans bench.old bench.new }
{
    let mut entry = bench.entry(cell);
    entry.turn = Some(party);
    bench.set_entry(cell, entry);
}

// The conflicting line goes home, for the party served.
pub fn recall<O: Operation, H: Home<O>, R: Victim>(
    bench: &mut Bench<'_, O, H, R>,
    cell: usize,
    served: usize,
    line: usize,
) -> Advanced
    requires within { cell < length bench.old.directory.now }
    requires sendable { Sendable bench.old line }
    requires counts { bench.old.ledger.now.recalls < 2 ^ 63 }
    ensures answer { result ≡ Advanced.Recall (line / bench.old.ways) }
    ensures state { seen H.Home.meaning bench.new ≡ (performed (terms O.Operation.algebra R.Victim.rule H.Home.meaning bench.old) (seen H.Home.meaning bench.old) cell (Recall served line)).0 }
    ensures lent { SameLoans bench.old bench.new }
{
    give_turn(bench, cell, served);
    send_line(bench, line);
    bench.ledger.recalls += 1;
    Advanced::Recall(line / bench.ways)
}

// The way that the rule picks goes home, to make room for the party served.
pub fn evict<O: Operation, H: Home<O>, R: Victim>(
    bench: &mut Bench<'_, O, H, R>,
    cell: usize,
    served: usize,
) -> Advanced
    requires limits { (Servable served bench.old.ways) × ((served * bench.old.ways ≤ 128) × (cell < length bench.old.directory.now)) }
    requires sendable { Sendable bench.old (served * bench.old.ways + R.Victim.rule.picked bench.old.rule.now served bench.old.ways) }
    requires counts { bench.old.ledger.now.evictions < 2 ^ 63 }
    ensures answer { result ≡ Advanced.Evict (R.Victim.rule.picked bench.old.rule.now served bench.old.ways) }
    ensures state { seen H.Home.meaning bench.new ≡ (performed (terms O.Operation.algebra R.Victim.rule H.Home.meaning bench.old) (seen H.Home.meaning bench.old) cell (Evict served)).0 }
    ensures lent { SameLoans bench.old bench.new }
{
    give_turn(bench, cell, served);
    let way = bench.rule.pick(served, bench.ways);
    let picked = served * bench.ways + way;
    send_line(bench, picked);
    bench.ledger.evictions += 1;
    Advanced::Evict(way)
}

// The request of the party served is finished, in its lowest Invalid way.
pub fn grant<O: Operation, H: Home<O>, R: Victim>(
    bench: &mut Bench<'_, O, H, R>,
    cell: usize,
    served: usize,
    request: Request<O::Value, O::Partial>,
    line: usize,
) -> Result<Advanced, Refusal>
    requires place { (line < length bench.old.lines.now) × ((served * bench.old.ways ≤ line) × (served * bench.old.ways ≤ 128)) }
    requires limits { (served < length bench.old.registers.now) × ((served < 16) × (cell < length bench.old.directory.now)) }
    requires asked { target request ≡ cell }
    requires counts { bench.old.ledger.now.grants < 2 ^ 63 }
    ensures answer { advanced result ≡ (performed (terms O.Operation.algebra R.Victim.rule H.Home.meaning bench.old) (seen H.Home.meaning bench.old) cell (Grant served request line)).1 }
    ensures state { seen H.Home.meaning bench.new ≡ (performed (terms O.Operation.algebra R.Victim.rule H.Home.meaning bench.old) (seen H.Home.meaning bench.old) cell (Grant served request line)).0 }
    ensures lent { SameLoans bench.old bench.new }
{
    let new = new_line::<O, H>(bench.home, request)?;
    bench.set_line(line, new);
    add_holder(bench, cell, new, served);
    bench.set_register(served, Register::Answered(answer_to(request, new)));
    bench.rule.touch(served, line - served * bench.ways);
    bench.ledger.grants += 1;
    Ok(Advanced::Grant(served))
}
