// Why a call is refused. The first that applies, in the order of the numbers, decides.
ghost use Rattle.std.specs.Prelude.{◌≡◌};
ghost use Rattle.tables.specs.Refusals.{number_of};

#[derive(Clone, Copy, PartialEq, Eq, Debug)]
pub enum Refusal {
    // P is not 1 to 16, N not 1 to 256, W not 1 to 8, or the lines are not P × W.
    Sizes = 1,
    // The tables are not legal.
    Illegal = 2,
    // The ledger is closed.
    LedgerClosed = 3,
    // The home has fewer than N cells.
    HomeTooSmall = 4,
    // A count is 2^63 or more.
    CountTooHigh = 5,
    // The party is P or above.
    NoSuchParty = 6,
    // The cell is N or above.
    NoSuchCell = 7,
    // The party's register is not Empty.
    RegisterInUse = 8,
    // The party's register is Empty.
    RegisterEmpty = 9,
    // The party's register is still Waiting.
    RegisterWaiting = 10,
    // The party has no line of the cell.
    NoLine = 11,
    // Some register is not Empty.
    Unfinished = 12,
    // A home's place is outside its cells.
    Place = 13,
}

impl Refusal {
    // The number under which the refusal is known, 1 to 13.
    pub fn number(self) -> u8
        ensures { result ≡ number_of self }
    {
        self as u8
    }
}
