use super::*;
use memory::{Combining, Refusal};
use operation::Peak;
use std::process::Abort;
use std::test::Fail;

type One = Combining<Peak, Bare<Peak>>;

type Two = Combining<Peak, One>;

// Two applies to one place, one to another, a load of the last and a load outside.
fn shows_the_same<P: Pile<Peak>>(rt: &impl Abort, heap: Global) -> Result<Counts, Fail> {
    let calls = [
        Call::Apply {
            place: 0,
            partial: 12,
        },
        Call::Apply {
            place: 0,
            partial: 11,
        },
        Call::Apply {
            place: 1,
            partial: 30,
        },
        Call::Load { place: 1 },
        Call::Load { place: 2 },
    ];
    let outcome = play_on::<Peak, P>(vec![in heap; 10, 20]?, &calls, heap)?;
    assert_eq!(rt;
        outcome.answers.as_slice(),
        [
            Answer::Done,
            Answer::Done,
            Answer::Done,
            Answer::Value(30),
            Answer::Refused(Refusal::Place)
        ]
        .as_slice()
    );
    assert_eq!(rt; outcome.values.as_slice(), [12, 30].as_slice());
    Ok(outcome.reached)
}

#[test]
fn a_register_joins_two_applies(rt: HostRuntime) -> Result<(), Fail> {
    let heap = rt.alloc();
    assert_eq!(rt; shows_the_same::<Bare<Peak>>(&rt, heap)?.applies, 3);
    assert_eq!(rt; shows_the_same::<One>(&rt, heap)?.applies, 2);
    assert_eq!(rt; shows_the_same::<Two>(&rt, heap)?.applies, 2);
    Ok(())
}
