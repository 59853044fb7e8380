// What the directory knows of a cell.
ghost use Rattle.std.specs.Prelude.{◌≡◌};
ghost use Rattle.tables.specs.Legal.{blank};

use party_set::PartySet;

// The state that all lines of a cell share.
#[derive(Clone, Copy, PartialEq, Eq, Debug)]
pub enum Phase {
    Free,
    Shared,
    UpdateOnly,
    Modified,
}

// The holders are the parties with a line of the cell; the turn, if any, is that of the party being served;
// `last` is the party last granted, after which the next turn is looked for.
#[derive(Clone, Copy, PartialEq, Eq, Debug)]
pub struct Entry {
    pub phase: Phase,
    pub holders: PartySet,
    pub turn: Option<usize>,
    pub last: usize,
}

impl Entry {
    // That of a cell without a holder or a turn, where `last` is the party last granted.
    pub fn free(last: usize) -> Entry
        ensures { result ≡ blank last }
    {
        Entry {
            phase: Phase::Free,
            holders: PartySet::none(),
            turn: None,
            last,
        }
    }
}
