// The rule that goes by age: the way that was touched the longest ago goes next.
ghost use Rattle.std.specs.Prelude.{◌≡◌, ◌≤◌, replicate, MatchOption};
ghost use Rattle.victim.specs.Ages.{IsOldest, Renewed, Whole};
ghost use Rattle.victim.specs.Aging.{IsAnswer, aging, oldest_of, order_of, ways_of};
ghost use Rattle.victim.specs.Orders.{numbered};
ghost use Rattle.victim.specs.Recency.{SparesRecent};
ghost use Rattle.victim.specs.Rules.{Servable, Touchable};
ghost use Rattle.victim.specs.Serving.{picked_oldest};
ghost use Rattle.std.proofs.Common.{rules};

use super::Victim;
use super::limits::{PARTIES, WAYS, servable, touchable};
use super::order::Order;

#[derive(Clone, Copy, PartialEq, Eq, Debug)]
pub struct Oldest {
    orders: [Order; PARTIES],
}

impl Oldest {
    // The ways of every party in the order of their numbers.
    pub fn new() -> Oldest
        ensures value { result.orders ≡ replicate 16 numbered }
        ensures recent { SparesRecent result }
    {
        Oldest {
            orders: [Order::new(); PARTIES],
        }
    }

    // The ways of a party, the oldest first.
    pub fn order(&self, party: usize) -> Option<[usize; WAYS]>
        ensures value { result ≡ ways_of self.now party }
        ensures whole { MatchOption result (16 ≤ party) Whole }
    {
        let order = self.orders.get(party)?;
        Some(order.ways())
    }

    // The oldest of a party's first so many ways.
    pub fn oldest_below(&self, party: usize, ways: usize) -> Option<usize>
        ensures value { result ≡ oldest_of self.now party ways }
        ensures oldest { IsAnswer self.now party ways result }
    {
        if servable(party, ways) {
            self.orders[party].oldest_below(ways)
        } else {
            None
        }
    }
}

impl Victim for Oldest {
    ghost rule = { aging };

    ghost within = { λ x party ways h. (picked_oldest x party ways h).3 };

    ghost idle = { Prim.search rules };

    ghost deaf = { Prim.search rules };

    fn touch(&mut self, party: usize, way: usize)
        ensures value { self.new ≡ aging.touched self.old party way }
        ensures renewed { Touchable party way → Renewed (order_of self.old party).ways way (order_of self.new party).ways }
    {
        if touchable(party, way) {
            self.orders[party].touch(way);
        }
    }

    fn pick(&mut self, party: usize, ways: usize) -> usize
        ensures value { result ≡ aging.picked self.old party ways }
        ensures after { self.new ≡ aging.after self.old party ways }
        ensures oldest { Servable party ways → IsOldest (order_of self.old party).ways ways result }
    {
        self.oldest_below(party, ways).unwrap_or(0)
    }
}

#[cfg(test)]
mod tests {
    use super::*;

    #[test]
    fn spares_the_touched(rt: HostRuntime) {
        let mut rule = Oldest::new();
        rule.touch(5, 0);
        rule.touch(5, 2);
        assert_eq!(rt; rule.pick(5, 2), 1);
        rule.touch(5, 1);
        assert_eq!(rt; rule.pick(5, 2), 0);
        assert_eq!(rt; rule.order(5), Some([3, 4, 5, 6, 7, 0, 2, 1]));
    }
}
