// Tables of a bench that own their memory, for programs that have none to lend.
#![tactic(auto)]

ghost use Rattle.std.specs.Prelude.{◌≡◌, ◌*◌, length, replicate, IfOk};

use std::alloc::{AllocError, Global};
use tables::{Entry, Ledger, Line, Register, Status};

// The tables and the ledger, still to be made: the ledger is closed.
#[derive(Drop)]
pub struct Workbench<V, P> {
    pub lines: Vec<Line<V, P>>,
    pub directory: Vec<Entry>,
    pub registers: Vec<Register<V, P>>,
    pub ledger: Ledger,
}

// A row of copies of the value.
pub fn row_of<T: Copy>(value: T, count: usize, heap: Global) -> Result<Vec<T>, AllocError>
    ensures { IfOk result (λ v. v.items ≡ replicate count value) }
{
    // `vec!` promises this of clones that are known to be equal, and a copy says nothing of its clone.
    let mut row = Vec::new(heap);
    row.resize(count, value)?;
    Ok(row)
}

impl<V: Copy, P: Copy> Workbench<V, P> {
    // Tables for so many parties, each with so many ways, and so many cells.
    pub fn new(
        parties: u8,
        ways: u8,
        cells: u16,
        heap: Global,
    ) -> Result<Workbench<V, P>, AllocError>
        ensures { IfOk result (λ b. (length b.lines.items ≡ parties * ways) × (length b.directory.items ≡ cells) × (length b.registers.items ≡ parties)) }
    {
        Ok(Workbench {
            lines: row_of(
                Line::Invalid,
                usize::from(parties) * usize::from(ways),
                heap,
            )?,
            directory: row_of(Entry::free(0), usize::from(cells), heap)?,
            registers: row_of(Register::Empty, usize::from(parties), heap)?,
            ledger: Ledger::new(Status::Closed),
        })
    }
}
