// A bench over tables, ledger, rule and home that are lent to it.
#![tactic(auto)]

ghost use Rattle.std.specs.Prelude.{◌≡◌};
ghost use Rattle.model.specs.Bench.{state};

mod changes;
mod places;
mod reads;
mod searches;

use memory::Home;
use operation::Operation;
pub use places::{entry_at, is_free, line_at, register_at, set_register};
pub use searches::{find_line, own_hit, own_line, vacant_way};
use tables::{Entry, Ledger, Line, Register};

// All that a call reads and changes, in place. Way w of party p is line p × `ways` + w: the tables are the host's, of
// whatever storage, so they are slices, and their sizes and legality a fact (`InOrder`) and not part of the type. (As
// ghost fields of a struct over the loans they were tried: what the lenders get back is then not known.)
#[derive(Drop)]
pub struct Bench<'a, O: Operation, H, R> {
    pub lines: &'a mut [Line<O::Value, O::Partial>],
    pub directory: &'a mut [Entry],
    pub registers: &'a mut [Register<O::Value, O::Partial>],
    pub ledger: &'a mut Ledger,
    pub rule: &'a mut R,
    pub home: &'a mut H,
    pub ways: usize,
}

impl<'a, O: Operation, H: Home<O>, R> Bench<'a, O, H, R> {
    ghost use Rattle.bench.specs.Lent.{seen};

    // A bench over tables of any sizes and in any state. What the calls leave is with the lenders once the bench is
    // let go. (A function of seven parameters: here
    // they come together. A literal was tried, and the check does not cover one of loans of several lifetimes.)
    pub fn over(
        lines: &'a mut [Line<O::Value, O::Partial>],
        directory: &'a mut [Entry],
        registers: &'a mut [Register<O::Value, O::Partial>],
        ledger: &'a mut Ledger,
        rule: &'a mut R,
        home: &'a mut H,
        ways: usize,
    ) -> Bench<'a, O, H, R>
        ensures seen { seen H.Home.meaning result ≡ state lines.old directory.old registers.old ledger.old rule.old (H.Home.meaning home.old) }
        ensures home { result.home.now ≡ home.old }
        ensures ways { result.ways ≡ ways }
        ensures lent_lines { result.lines.ghost_name ≡ lines.entry.ghost_name }
        ensures lent_directory { result.directory.ghost_name ≡ directory.entry.ghost_name }
        ensures lent_registers { result.registers.ghost_name ≡ registers.entry.ghost_name }
        ensures lent_ledger { result.ledger.ghost_name ≡ ledger.entry.ghost_name }
        ensures lent_rule { result.rule.ghost_name ≡ rule.entry.ghost_name }
        ensures lent_home { result.home.ghost_name ≡ home.entry.ghost_name }
    {
        Bench {
            lines,
            directory,
            registers,
            ledger,
            rule,
            home,
            ways,
        }
    }
}
