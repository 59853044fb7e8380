use super::*;
use operation::{Flags, Peak, Total};
use std::alloc::Global;
use std::process::Abort;
use std::test::Fail;

fn broken(rt: &impl Abort, script: &[u8]) {
    assert_eq!(rt;
        read_head(script),
        Err(LineFault {
            line: 1,
            place: 0,
            cause: Cause::Broken,
        })
    );
}

#[test]
fn a_bench_is_described(rt: HostRuntime) {
    assert_eq!(rt;
        read_head(b"bench peak 16 8 256 oldest"),
        Ok(Head {
            kind: Kind::Peak,
            parties: 16,
            ways: 8,
            cells: 256,
            ranking: Ranking::Oldest,
        })
    );
}

#[test]
fn other_first_lines_are_broken(rt: HostRuntime) {
    broken(&rt, b"");
    broken(&rt, b"bench total 1 1 1");
    broken(&rt, b"bench total 1 1 1 rotate ");
    broken(&rt, b"bench total 17 1 1 rotate\nsettle");
}

// A script that says so many calls, and then has no fault.
fn says<O: Scripted>(
    rt: &impl Abort,
    script: &[u8],
    calls: usize,
    heap: Global,
) -> Result<(), Fail> {
    let reading = read_calls::<O>(script, heap)?;
    assert_eq!(rt; reading.calls.len(), calls);
    assert_eq!(rt; reading.fault, None);
    Ok(())
}

// A script whose second line has the fault.
fn fails<O: Scripted>(
    rt: &impl Abort,
    script: &[u8],
    place: usize,
    cause: Cause,
    heap: Global,
) -> Result<(), Fail> {
    let reading = read_calls::<O>(script, heap)?;
    assert_eq!(rt; reading.calls.len(), 0);
    assert_eq!(rt;
        reading.fault,
        Some(LineFault {
            line: 2,
            place,
            cause,
        })
    );
    Ok(())
}

#[test]
fn calls_are_read(rt: HostRuntime) -> Result<(), Fail> {
    let heap = rt.alloc();
    says::<Total>(&rt, b"bench\n", 0, heap)?;
    says::<Peak>(
        &rt,
        b"bench\npost 0 read 65535\nadvance 0\ncollect 65535\nyield 1 2\nsettle\nsettle\n",
        6,
        heap,
    )
}

#[test]
fn ranges_are_read(rt: HostRuntime) -> Result<(), Fail> {
    let heap = rt.alloc();
    says::<Total>(
        &rt,
        b"bench\npost 0 write 0 4294967295\npost 0 update 0 -2147483648\npost 0 update 0 2147483647",
        3,
        heap,
    )?;
    says::<Peak>(&rt, b"bench\npost 0 write 0 18446744073709551615", 1, heap)?;
    says::<Flags>(&rt, b"bench\npost 0 write 0 65535", 1, heap)
}

#[test]
fn words_may_be_unknown(rt: HostRuntime) -> Result<(), Fail> {
    let heap = rt.alloc();
    fails::<Total>(&rt, b"bench\n\n", 0, Cause::Word, heap)?;
    fails::<Total>(&rt, b"bench\n advance 0", 0, Cause::Word, heap)?;
    fails::<Total>(&rt, b"bench\npost 0 take x", 7, Cause::Word, heap)
}

#[test]
fn numbers_may_be_none(rt: HostRuntime) -> Result<(), Fail> {
    let heap = rt.alloc();
    fails::<Total>(&rt, b"bench\nadvance  0", 8, Cause::Number, heap)?;
    fails::<Total>(&rt, b"bench\nadvance 00", 8, Cause::Number, heap)?;
    fails::<Total>(&rt, b"bench\nadvance -0", 8, Cause::Number, heap)?;
    fails::<Total>(&rt, b"bench\npost \xff take", 5, Cause::Number, heap)
}

#[test]
fn numbers_may_be_out_of_range(rt: HostRuntime) -> Result<(), Fail> {
    let heap = rt.alloc();
    fails::<Total>(&rt, b"bench\nadvance 65536", 8, Cause::Number, heap)?;
    fails::<Total>(
        &rt,
        b"bench\npost 0 write 0 4294967296",
        15,
        Cause::Number,
        heap,
    )?;
    fails::<Total>(
        &rt,
        b"bench\npost 0 update 0 -2147483649",
        16,
        Cause::Number,
        heap,
    )?;
    fails::<Peak>(&rt, b"bench\npost 0 update 0 -1", 16, Cause::Number, heap)
}

#[test]
fn fields_may_be_missing_or_too_many(rt: HostRuntime) -> Result<(), Fail> {
    let heap = rt.alloc();
    fails::<Total>(&rt, b"bench\nadvance", 7, Cause::Fields, heap)?;
    fails::<Flags>(&rt, b"bench\npost 0 write 0", 14, Cause::Fields, heap)?;
    fails::<Total>(&rt, b"bench\nadvance 1 2 3", 10, Cause::Fields, heap)?;
    fails::<Total>(&rt, b"bench\nsettle ", 7, Cause::Fields, heap)
}
