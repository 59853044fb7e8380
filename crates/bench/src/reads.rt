// One place of a table, by value.
ghost use Rattle.std.specs.Prelude.{◌≡◌, ◌<◌, length, slice_index_or};
ghost use Rattle.tables.specs.declared.line.Line.TheVariants.{Invalid};
ghost use Rattle.tables.specs.declared.register.Register.TheVariants.{Empty};
ghost use Rattle.tables.specs.Legal.{blank};
ghost use Rattle.tables.specs.Lines.{is_empty};

use super::Bench;
use super::places::{entry_at, is_free, line_at, register_at};
use operation::Operation;
use tables::{Entry, Line, Register};

impl<'a, O: Operation, H, R> Bench<'a, O, H, R> {
    pub fn line(&self, i: usize) -> Line<O::Value, O::Partial>
        requires { i < length self.now.lines.now }
        ensures { result ≡ slice_index_or self.now.lines.now i Invalid }
    {
        line_at(self.lines, i)
    }

    pub fn entry(&self, cell: usize) -> Entry
        requires { cell < length self.now.directory.now }
        ensures { result ≡ slice_index_or self.now.directory.now cell (blank 0) }
    {
        entry_at(self.directory, cell)
    }

    pub fn register(&self, party: usize) -> Register<O::Value, O::Partial>
        requires { party < length self.now.registers.now }
        ensures { result ≡ slice_index_or self.now.registers.now party Empty }
    {
        register_at(self.registers, party)
    }

    // Whether the party may post: its register is Empty.
    pub fn is_free(&self, party: usize) -> bool
        ensures { result ≡ is_empty (slice_index_or self.now.registers.now party Empty) }
    {
        is_free(self.registers, party)
    }
}
