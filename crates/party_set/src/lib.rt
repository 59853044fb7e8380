// A set of parties, which are numbered from 0 to 15.
#![tactic(auto)]

ghost use Rattle.std.specs.Prelude.{◌≡◌, if◌then◌else◌, nat_lt};
ghost use Rattle.party_set.specs.Sets.{nobody, has, with, without, is_nobody, lowest};

// So many parties have a place in a set.
const PARTIES: usize = 16;

// Bit p says whether party p is in the set; no other crate sees a bit.
#[derive(Clone, Copy, PartialEq, Eq, Debug)]
pub struct PartySet {
    members: u16,
}

impl PartySet {
    pub fn none() -> PartySet
        ensures { result ≡ nobody }
    {
        PartySet { members: 0 }
    }

    pub fn is_empty(self) -> bool
        ensures { result ≡ is_nobody self }
    {
        self.members == 0
    }

    // Whether the party is in the set; a party from 16 on never is.
    pub fn has(self, party: usize) -> bool
        ensures { result ≡ has self party }
    {
        party < PARTIES && (self.members >> party) % 2 == 1
    }

    // The set with the party; one from 16 on has no place in it.
    pub fn with(self, party: usize) -> PartySet
        ensures { result ≡ (if nat_lt party 16 then with self party else self) }
    {
        if party < PARTIES {
            PartySet {
                members: self.members | 1 << party,
            }
        } else {
            self
        }
    }

    // The set without the party.
    pub fn without(self, party: usize) -> PartySet
        ensures { result ≡ (if nat_lt party 16 then without self party else self) }
    {
        if party < PARTIES {
            PartySet {
                members: self.members & !(1 << party),
            }
        } else {
            self
        }
    }

    // The lowest party of the set.
    pub fn lowest(self) -> Option<usize>
        ensures { result ≡ lowest self }
    {
        (0..PARTIES).find(|&party| self.has(party))
    }
}
