// What a bench has counted, and whether it is still in play.
ghost use Rattle.std.specs.Prelude.{◌≡◌};
ghost use Rattle.tables.specs.Ledgers.{counted_nothing, is_open, counts_low};

#[derive(Clone, Copy, PartialEq, Eq, Debug)]
pub enum Status {
    Open,
    Closed,
}

#[derive(Clone, Copy, PartialEq, Eq, Debug)]
pub struct Ledger {
    pub status: Status,
    pub hits: u64,
    pub grants: u64,
    pub recalls: u64,
    pub evictions: u64,
    pub yields: u64,
}

// A count from here on is too high to go on: no count of a bench can wrap.
const COUNT_LIMIT: u64 = 1 << 63;

impl Ledger {
    // One that has counted nothing.
    pub fn new(status: Status) -> Ledger
        ensures { result ≡ counted_nothing status }
    {
        Ledger {
            status,
            hits: 0,
            grants: 0,
            recalls: 0,
            evictions: 0,
            yields: 0,
        }
    }

    // Whether calls may still be made.
    pub fn is_open(&self) -> bool
        ensures { result ≡ is_open self.now }
    {
        self.status == Status::Open
    }

    // Whether every count is below 2^63.
    pub fn counts_low(&self) -> bool
        ensures { result ≡ counts_low self.now }
    {
        [
            self.hits,
            self.grants,
            self.recalls,
            self.evictions,
            self.yields,
        ]
        .iter()
        .all(|&count| count < COUNT_LIMIT)
    }
}
