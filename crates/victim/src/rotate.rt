// The rule that goes round: each party has a pointer to the way that goes next.
ghost use Rattle.std.specs.Prelude.{◌≡◌, replicate};
ghost use Rattle.victim.specs.Rotating.{onward, pointer_of, rotating};
ghost use Rattle.victim.specs.Rules.{Servable};
ghost use Rattle.std.proofs.Common.{rules};

use super::Victim;
use super::limits::{PARTIES, servable};

#[derive(Clone, Copy, PartialEq, Eq, Debug)]
pub struct Rotate {
    pointers: [usize; PARTIES],
}

impl Rotate {
    // Every party begins at its first way.
    pub fn new() -> Rotate
        ensures { result.pointers ≡ replicate 16 0 }
    {
        Rotate {
            pointers: [0; PARTIES],
        }
    }

    // Where the party's next pick begins.
    pub fn pointer(&self, party: usize) -> Option<usize>
        ensures { result ≡ pointer_of self.now party }
    {
        self.pointers.get(party).copied()
    }
}

impl Victim for Rotate {
    ghost rule = { rotating };

    ghost within = { Prim.search rules };

    ghost idle = { Prim.search rules };

    ghost deaf = { Prim.search rules };

    fn touch(&mut self, _party: usize, _way: usize) {}

    fn pick(&mut self, party: usize, ways: usize) -> usize
        ensures value { result ≡ rotating.picked self.old party ways }
        ensures after { self.new ≡ rotating.after self.old party ways }
        ensures round { Servable party ways → rotating.picked self.new party ways ≡ onward result ways }
    {
        if !servable(party, ways) {
            return 0;
        }
        let pointer = self.pointers[party];
        let way = if pointer < ways { pointer } else { 0 };
        self.pointers[party] = if way + 1 == ways { 0 } else { way + 1 };
        way
    }
}

#[cfg(test)]
mod tests {
    use super::*;

    #[test]
    fn goes_round(rt: HostRuntime) {
        let mut rule = Rotate::new();
        assert_eq!(rt; rule.pick(3, 2), 0);
        assert_eq!(rt; rule.pick(3, 2), 1);
        assert_eq!(rt; rule.pick(3, 2), 0);
        assert_eq!(rt; rule.pick(16, 2), 0);
        assert_eq!(rt; rule.pointer(3), Some(1));
    }
}
