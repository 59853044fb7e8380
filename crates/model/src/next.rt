// What an advance of a cell will do next.
use tables::Request;

// Lines are given by their place in the flat table.
#[derive(Clone, Copy, PartialEq, Eq, Debug)]
pub enum Next<V, P> {
    // Nobody waits for the cell.
    Idle,
    // A line in conflict with the served party's request goes home.
    Recall {
        served: usize,
        line: usize,
    },
    // The served party has no Invalid way: one that its rule picks goes home.
    Evict {
        served: usize,
    },
    // The served party's request is finished, in its lowest Invalid way.
    Grant {
        served: usize,
        request: Request<V, P>,
        line: usize,
    },
}
