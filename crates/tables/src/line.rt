// One way of a party's cache.
ghost use Rattle.std.specs.Prelude.{◌≡◌, if◌then◌else◌, Some, None};
ghost use Rattle.tables.specs.Lines.{is_held, cell_of, is_of, phase_of, hits, conflicts};

use super::entry::Phase;
use super::request::Request;

// A line is Invalid, or holds one cell: a copy that may be read (Shared), updates not yet applied to the
// cell (UpdateOnly), or the only valid value (Modified).
#[derive(Clone, Copy, PartialEq, Eq, Debug)]
pub enum Line<V, P> {
    Invalid,
    Shared { cell: usize, value: V },
    UpdateOnly { cell: usize, partial: P },
    Modified { cell: usize, value: V },
}

impl<V: Copy, P: Copy> Line<V, P> {
    // Whether it holds a cell at all.
    pub fn is_held(&self) -> bool
        ensures { result ≡ is_held self.now }
    {
        !matches!(self, Line::Invalid)
    }

    // Whether it holds the cell.
    pub fn is_of(&self, cell: usize) -> bool
        ensures { result ≡ is_of cell self.now }
    {
        self.cell() == Some(cell)
    }

    // The cell that it holds, if any.
    pub fn cell(&self) -> Option<usize>
        ensures { result ≡ (if is_held self.now then Some (cell_of self.now) else None) }
    {
        match self {
            Line::Invalid => None,
            Line::Shared { cell, .. }
            | Line::UpdateOnly { cell, .. }
            | Line::Modified { cell, .. } => Some(*cell),
        }
    }

    // The phase that its cell is in with such a line.
    pub fn phase(&self) -> Phase
        ensures { result ≡ phase_of self.now }
    {
        match self {
            Line::Invalid => Phase::Free,
            Line::Shared { .. } => Phase::Shared,
            Line::UpdateOnly { .. } => Phase::UpdateOnly,
            Line::Modified { .. } => Phase::Modified,
        }
    }

    // Whether the line finishes the request as it stands.
    pub fn hits(&self, request: &Request<V, P>) -> bool
        ensures { result ≡ hits request.now self.now }
    {
        match (self, request) {
            (Line::Shared { cell, .. }, Request::Read { .. })
            | (Line::UpdateOnly { cell, .. }, Request::Update { .. })
            | (Line::Modified { cell, .. }, _) => *cell == request.cell(),
            _ => false,
        }
    }
}
