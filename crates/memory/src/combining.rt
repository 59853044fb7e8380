// A combining register: a buffer of one pending partial, over any home.
ghost use Rattle.std.specs.Prelude.{◌≡◌, None};
ghost use Rattle.memory.specs.Register.{acting};

use super::{Home, Refusal};
use operation::Operation;

// A partial that is still to act, and the place where.
#[derive(Clone, Copy)]
pub struct Pending<P> {
    pub place: usize,
    pub partial: P,
}

// Gathers the partials for one place, and sends them down as one.
#[derive(Drop)]
pub struct Combining<O: Operation, H> {
    below: H,
    held: Option<Pending<O::Partial>>,
}

impl<O: Operation, H> Combining<O, H> {
    // A register over a home, holding nothing yet.
    pub fn over(below: H) -> Self
        ensures below { result.below ≡ below }
        ensures held { result.held ≡ None }
    {
        Combining { below, held: None }
    }

    // The home below, and the partial that has not reached it.
    pub fn into_parts(self) -> (H, Option<Pending<O::Partial>>)
        ensures { result ≡ (self.below, self.held) }
    {
        let Combining { below, held } = self;
        (below, held)
    }
}

impl<O: Operation, H: Home<O>> Home<O> for Combining<O, H> {
    ghost meaning = { λ s. acting O.Operation.algebra (H.Home.meaning s.below) s.held };

    #[tactic(auto, using(crate::proofs::Acting::length_acting))]
    fn cells(&self) -> usize {
        self.below.cells()
    }

    #[tactic(auto, using(crate::proofs::Acting::register))]
    fn load(&mut self, place: usize) -> Result<O::Value, Refusal> {
        match (&mut self.held, place) {
            (Some(Pending { place: at, partial }), place) if *at == place => {
                self.below.apply(place, *partial)?;
                self.held = None;
                self.below.load(place)
            }
            _ => self.below.load(place),
        }
    }

    #[tactic(auto, using(crate::proofs::Acting::register))]
    fn store(&mut self, place: usize, value: O::Value) -> Result<(), Refusal> {
        match (&mut self.held, place) {
            (Some(Pending { place: at, .. }), place) if *at == place => {
                self.below.store(place, value)?;
                self.held = None;
                Ok(())
            }
            _ => self.below.store(place, value),
        }
    }

    #[tactic(auto, using(crate::proofs::Acting::register))]
    fn apply(&mut self, place: usize, partial: O::Partial) -> Result<(), Refusal> {
        if place >= self.below.cells() {
            return Err(Refusal::Place);
        }
        match (&mut self.held, place) {
            (Some(held), place) if held.place == place => {
                held.partial = O::join(held.partial, partial);
            }
            (Some(held), place) => {
                // A place that is refused below has no value to act on.
                let _ = self.below.apply(held.place, held.partial);
                self.held = Some(Pending { place, partial });
            }
            (None, place) => {
                self.held = Some(Pending { place, partial });
            }
        }
        Ok(())
    }
}
