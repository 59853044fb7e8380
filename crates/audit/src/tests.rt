// A table of two parties with one way each, where both hold updates of the first of two cells and one waits to
// read it.
use super::audit;
use party_set::PartySet;
use tables::{Entry, Line, Phase, Refusal, Register, Request};

// The audit with such a second line and so many ways, a refusal by its number.
fn answer(second: Line<u32, u32>, ways: usize) -> Result<(), u8> {
    let first = Line::UpdateOnly {
        cell: 0,
        partial: 5,
    };
    let updated = Entry {
        phase: Phase::UpdateOnly,
        holders: PartySet::none().with(0).with(1),
        turn: Some(1),
        last: 0,
    };
    let registers = [
        Register::Empty,
        Register::Waiting(Request::Read { cell: 0 }),
    ];
    let directory = [updated, Entry::free(1)];
    audit(&[first, second], &directory, &registers, ways).map_err(Refusal::number)
}

#[test]
fn legal_illegal_and_of_wrong_sizes(rt: HostRuntime) {
    assert_eq!(rt;
        answer(
            Line::UpdateOnly {
                cell: 0,
                partial: 7,
            },
            1,
        ),
        Ok(())
    );
    assert_eq!(rt; answer(Line::Modified { cell: 0, value: 7 }, 1), Err(2));
    assert_eq!(rt; answer(Line::Invalid, 1), Err(2));
    assert_eq!(rt; answer(Line::Invalid, 2), Err(1));
}
