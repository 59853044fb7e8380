use super::*;
use operation::{Count, Flags, Pair, Peak, Total};
use std::test::Fail;

#[test]
fn pairs_of_pairs_are_shown_part_by_part(rt: HostRuntime) -> Result<(), Fail> {
    let text = Pair::<Pair<Total, Peak>, Flags>::show(((Count::new(7), 30), 9), rt.alloc())?;
    assert_eq!(rt; text.as_str(), "7 30 9");
    Ok(())
}

#[test]
fn a_number_is_read_at_its_type(rt: HostRuntime) {
    assert_eq!(rt; read::<i32>("-3"), Ok(-3));
    assert_eq!(rt; read::<u16>("65536"), Err(Misread::Range));
    assert_eq!(rt; read::<u16>("six"), Err(Misread::Number));
}

#[test]
fn operations_are_named(rt: HostRuntime) {
    assert_eq!(rt; Kind::named(b"flags"), Some(Kind::Flags));
    assert_eq!(rt; Kind::named(b"flag"), None);
}
