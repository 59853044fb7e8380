use super::{answer_text, tally_text};
use model::Answer;
use operation::Peak;
use std::test::Fail;
use tables::{Ledger, Refusal, Status};

#[test]
fn answers_in_words(rt: HostRuntime) -> Result<(), Fail> {
    let heap = rt.alloc();
    assert_eq!(rt;
        answer_text::<Peak>(Answer::Grant(3), heap)?.as_str(),
        "grant 3"
    );
    assert_eq!(rt;
        answer_text::<Peak>(Answer::Collected(Some(7)), heap)?.as_str(),
        "value 7"
    );
    assert_eq!(rt;
        answer_text::<Peak>(Answer::Refused(Refusal::NoLine), heap)?.as_str(),
        "refused 11"
    );
    Ok(())
}

#[test]
fn counts_in_words(rt: HostRuntime) -> Result<(), Fail> {
    let mut ledger = Ledger::new(Status::Open);
    ledger.grants = 2;
    assert_eq!(rt;
        tally_text(&ledger, rt.alloc())?.as_str(),
        "tally hits 0 grants 2 recalls 0 evictions 0 yields 0"
    );
    Ok(())
}
