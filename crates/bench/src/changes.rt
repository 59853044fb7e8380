// One place of a table, changed.
ghost use Rattle.std.specs.Prelude.{◌≡◌, ◌<◌, length, slice_set};

use super::Bench;
use super::places::set_register;
use memory::Home;
use operation::Operation;
use tables::{Entry, Line, Register};

impl<'a, O: Operation, H: Home<O>, R> Bench<'a, O, H, R> {
    ghost use Rattle.bench.specs.Lent.{seen, SameLoans};

    pub fn set_line(&mut self, i: usize, line: Line<O::Value, O::Partial>)
        requires { i < length self.old.lines.now }
        ensures state { seen H.Home.meaning self.new ≡ record (seen H.Home.meaning self.old) { lines = slice_set self.old.lines.now i line } }
        ensures home { self.new.home.now ≡ self.old.home.now }
        ensures lent { SameLoans self.old self.new }
    {
        self.lines[i] = line;
    }

    pub fn set_entry(&mut self, cell: usize, entry: Entry)
        requires { cell < length self.old.directory.now }
        ensures state { seen H.Home.meaning self.new ≡ record (seen H.Home.meaning self.old) { directory = slice_set self.old.directory.now cell entry } }
        ensures home { self.new.home.now ≡ self.old.home.now }
        ensures lent { SameLoans self.old self.new }
    {
        self.directory[cell] = entry;
    }

    pub fn set_register(&mut self, party: usize, register: Register<O::Value, O::Partial>)
        requires { party < length self.old.registers.now }
        ensures state { seen H.Home.meaning self.new ≡ record (seen H.Home.meaning self.old) { registers = slice_set self.old.registers.now party register } }
        ensures home { self.new.home.now ≡ self.old.home.now }
        ensures lent { SameLoans self.old self.new }
    {
        set_register(self.registers, party, register);
    }
}
