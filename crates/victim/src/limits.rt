// What a rule serves.
ghost use Rattle.std.specs.Prelude.{◌≡◌};
ghost use Rattle.victim.specs.Limits.{hears, serves};

// The parties that a rule serves.
pub const PARTIES: usize = 16;

// The most ways that a party may have.
pub const WAYS: usize = 8;

// Whether a pick serves the party with so many ways.
pub fn servable(party: usize, ways: usize) -> bool
    ensures { result ≡ serves party ways }
{
    party < PARTIES && (1..=WAYS).contains(&ways)
}

// Whether a touch serves the way of the party.
pub fn touchable(party: usize, way: usize) -> bool
    ensures { result ≡ hears party way }
{
    party < PARTIES && way < WAYS
}
