// What an order tells, and how it changes.
ghost use Rattle.std.specs.Prelude.{◌≡◌};
ghost use Rattle.victim.specs.Ages.{Whole, newest, oldest_below};
ghost use Rattle.victim.specs.Orders.{numbered, renewed};

use super::Order;
use crate::limits::WAYS;

impl Order {
    // The ways as they are numbered.
    pub fn new() -> Order
        ensures { result ≡ numbered }
    {
        Order {
            ways: [0, 1, 2, 3, 4, 5, 6, 7],
        }
    }

    // The ways, the oldest first.
    pub fn ways(self) -> [usize; WAYS]
        ensures value { result ≡ self.ways }
        ensures whole { Whole result }
    {
        self.ways
    }

    // The way is the newest now.
    pub fn touch(&mut self, way: usize)
        ensures { self.new ≡ renewed self.old way }
    {
        renew(&mut self.ways, way);
    }

    // The oldest way below a number.
    pub fn oldest_below(self, bound: usize) -> Option<usize>
        ensures { result ≡ oldest_below self.ways bound }
    {
        self.ways.iter().copied().find(|&way| way < bound)
    }
}

// Makes the way the newest: those that were newer move up by one.
fn renew(ways: &mut [usize], way: usize)
    ensures { ways.new ≡ newest ways.old way }
{
    if let Some(at) = ways.iter().position(|&other| other == way) {
        ways[at..].rotate_left(1);
    }
}
