// What a party asks of a cell.
ghost use Rattle.std.specs.Prelude.{◌≡◌};
ghost use Rattle.tables.specs.Lines.{target, clashes};

use super::entry::Phase;

#[derive(Clone, Copy, PartialEq, Eq, Debug)]
pub enum Request<V, P> {
    Read { cell: usize },
    Write { cell: usize, value: V },
    Update { cell: usize, partial: P },
}

impl<V: Copy, P: Copy> Request<V, P> {
    // The cell that it is about.
    pub fn cell(&self) -> usize
        ensures { result ≡ target self.now }
    {
        match self {
            Request::Read { cell } | Request::Write { cell, .. } | Request::Update { cell, .. } =>
                *cell,
        }
    }

    // Whether lines of its cell that are in the phase have to go home before it is granted.
    pub fn clashes_with(&self, phase: Phase) -> bool
        ensures { result ≡ clashes self.now phase }
    {
        !matches!(
            (self, phase),
            (_, Phase::Free)
                | (Request::Read { .. }, Phase::Shared)
                | (Request::Update { .. }, Phase::UpdateOnly)
        )
    }
}
