// The calls that a run is made of.
use tables::Request;

#[derive(Clone, Copy, PartialEq, Eq, Debug)]
pub enum Call<V, P> {
    Post {
        party: usize,
        request: Request<V, P>,
    },
    Advance {
        cell: usize,
    },
    Collect {
        party: usize,
    },
    Yield {
        party: usize,
        cell: usize,
    },
    Settle,
}
