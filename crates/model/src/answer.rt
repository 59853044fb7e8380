// What a call of a run answers.
use tables::Refusal;

#[derive(Clone, Copy, PartialEq, Eq, Debug)]
pub enum Answer<V> {
    Refused(Refusal),
    // A post that its party's own line finished.
    Hit,
    // A post that waits in its party's register.
    Queued,
    // An advance of a cell that nobody waits for.
    Idle,
    // An advance that sent home the conflicting line of a party.
    Recall(usize),
    // An advance that sent home a way of the served party.
    Evict(usize),
    // An advance that finished the request of a party.
    Grant(usize),
    // A collect: a read's value, or none for a write or an update.
    Collected(Option<V>),
    Yielded,
    Settled,
}
