use super::*;

type Four = Pair<Pair<Total, Peak>, Pair<Flags, Total>>;

#[test]
fn totals_wrap(rt: HostRuntime) {
    assert_eq!(rt;
        Total::act(Count::new(3), Delta::new(-5)),
        Count::new(4294967294)
    );
    assert_eq!(rt;
        Total::join(Delta::new(i32::MAX), Delta::new(1)),
        Delta::new(i32::MIN)
    );
}

#[test]
fn pairs_of_pairs_act_part_by_part(rt: HostRuntime) {
    let first = ((Delta::new(-5), 9), (0b0010, Delta::new(1)));
    let second = ((Delta::new(4), 8), (0b0110, Delta::new(1)));
    let start = ((Count::new(0), 7), (0b1000, Count::new(40)));
    let ((low, peak), (flags, high)) = Four::act(start, Four::join(first, second));
    assert_eq!(rt; low.get(), 4294967295);
    assert_eq!(rt; peak, 9);
    assert_eq!(rt; flags, 0b1110);
    assert_eq!(rt; high.get(), 42);
}
