// A party's register: its one request under way, and then its answer.
ghost use Rattle.std.specs.Prelude.{◌≡◌};
ghost use Rattle.tables.specs.Lines.{is_empty, request_of, waits_for};

use super::request::Request;

// A finished read is Answered with its value, any other request without one.
#[derive(Clone, Copy, PartialEq, Eq, Debug)]
pub enum Register<V, P> {
    Empty,
    Waiting(Request<V, P>),
    Answered(Option<V>),
}

impl<V: Copy, P: Copy> Register<V, P> {
    pub fn is_empty(&self) -> bool
        ensures { result ≡ is_empty self.now }
    {
        matches!(self, Register::Empty)
    }

    // The request that waits in it, if any.
    pub fn request(&self) -> Option<Request<V, P>>
        ensures { result ≡ request_of self.now }
    {
        match self {
            Register::Waiting(request) => Some(*request),
            _ => None,
        }
    }

    // Whether a request for the cell waits in it.
    pub fn waits_for(&self, cell: usize) -> bool
        ensures { result ≡ waits_for cell self.now }
    {
        self.request().is_some_and(|request| request.cell() == cell)
    }
}
