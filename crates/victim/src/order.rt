// The ways of one party by age.
ghost use Rattle.victim.specs.Ages.{Whole};

use super::limits::WAYS;

mod ages;

// All eight ways, the oldest first.
#[derive(Clone, Copy, PartialEq, Eq, Debug)]
pub struct Order {
    ways: [usize; WAYS],
    ghost whole: { Whole ways },
}
