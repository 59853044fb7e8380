// One place of a lent table, by value. (Functions over the tables alone, so that a host that has them only to read can
// look a place up too.)
ghost use Rattle.std.specs.Prelude.{◌≡◌, ◌<◌, length, slice_index_or, slice_set};
ghost use Rattle.tables.specs.declared.line.Line.TheVariants.{Invalid};
ghost use Rattle.tables.specs.declared.register.Register.TheVariants.{Empty};
ghost use Rattle.tables.specs.Legal.{blank};
ghost use Rattle.tables.specs.Lines.{is_empty};

use tables::{Entry, Line, Register};

pub fn line_at<V: Copy, P: Copy>(lines: &[Line<V, P>], i: usize) -> Line<V, P>
    requires { i < length lines.now }
    ensures { result ≡ slice_index_or lines.now i Invalid }
{
    lines[i]
}

pub fn register_at<V: Copy, P: Copy>(registers: &[Register<V, P>], i: usize) -> Register<V, P>
    requires { i < length registers.now }
    ensures { result ≡ slice_index_or registers.now i Empty }
{
    registers[i]
}

pub fn entry_at(directory: &[Entry], cell: usize) -> Entry
    requires { cell < length directory.now }
    ensures { result ≡ slice_index_or directory.now cell (blank 0) }
{
    directory[cell]
}

pub fn set_register<V: Copy, P: Copy>(
    registers: &mut [Register<V, P>],
    party: usize,
    register: Register<V, P>,
)
    requires { party < length registers.old }
    ensures { registers.new ≡ slice_set registers.old party register }
{
    registers[party] = register;
}

// Whether the party may post: its register is Empty.
pub fn is_free<V: Copy, P: Copy>(registers: &[Register<V, P>], party: usize) -> bool
    ensures { result ≡ is_empty (slice_index_or registers.now party Empty) }
{
    match registers.get(party) {
        Some(register) => register.is_empty(),
        None => true,
    }
}
