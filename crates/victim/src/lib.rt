// Victim rules: which way of a party's cache is sent home when all are in use.
#![tactic(auto)]

ghost use Rattle.std.specs.Prelude.{◌≡◌, ℕ, ◌<◌};
ghost use Rattle.victim.specs.Rules.{Rule, Servable, Touchable};

mod limits;
mod oldest;
mod order;
mod rotate;

pub use oldest::Oldest;
pub use rotate::Rotate;

// A rule is told which way of a party was touched, and picks a way of a party that has `ways` of them.
// `rule` says what it does, as functions of what it holds.
// Within the limits (a party below 16, 1 to 8 ways) a pick names an existing way; outside them it answers 0,
// and neither a pick nor a touch (of a way from 8 on, too) changes the rule.
pub trait Victim {
    ghost rule: { Rule Self };

    // The party used the way.
    fn touch(&mut self, party: usize, way: usize)
        ensures { self.new ≡ rule.touched self.old party way };

    // The way of the party that is to be sent home.
    fn pick(&mut self, party: usize, ways: usize) -> usize
        ensures value { result ≡ rule.picked self.old party ways }
        ensures after { self.new ≡ rule.after self.old party ways };

    ghost within: { (x : Self) (party ways : ℕ) → Servable party ways → rule.picked x party ways < ways };

    ghost idle: { (x : Self) (party ways : ℕ) → (Servable party ways → ⊥) → (rule.picked x party ways ≡ 0) × (rule.after x party ways ≡ x) };

    ghost deaf: { (x : Self) (party way : ℕ) → (Touchable party way → ⊥) → rule.touched x party way ≡ x };
}
