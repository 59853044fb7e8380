// Inputs that are refused, each with the line and the reason.
use call_list::{Fault, Reason, Stop};
use call_report::report;
use notation::Misread;
use std::alloc::Global;
use std::process::Abort;

fn refused(rt: &impl Abort, input: &[u8], line: usize, reason: Reason, heap: Global) {
    assert_eq!(rt;
        report(input, heap).err(),
        Some(Stop::Input(Fault { line, reason }))
    );
}

#[test]
fn refusals_of_the_head(rt: HostRuntime) {
    let heap = rt.alloc();
    refused(&rt, b"", 1, Reason::Empty, heap);
    refused(&rt, b"sum 8\n", 1, Reason::Operation, heap);
    refused(&rt, b"total\n", 1, Reason::Missing, heap);
    refused(&rt, b"total 0\n", 1, Reason::Cells, heap);
    refused(&rt, b"total 65537\n", 1, Reason::Cells, heap);
    refused(&rt, b"total 8 9\n", 1, Reason::Extra, heap);
    refused(&rt, b"total 8\n\xff\n", 2, Reason::Text, heap);
}

#[test]
fn refusals_of_calls(rt: HostRuntime) {
    let heap = rt.alloc();
    refused(&rt, b"total 8\nload 1\nread 1\n", 3, Reason::Word, heap);
    refused(&rt, b"total 8\n\nload 1\n", 2, Reason::Missing, heap);
    refused(&rt, b"total 8\nload 1 2\n", 2, Reason::Extra, heap);
    refused(
        &rt,
        b"total 8\nload one\n",
        2,
        Reason::Field(Misread::Number),
        heap,
    );
    refused(
        &rt,
        b"total 8\nload -1\n",
        2,
        Reason::Field(Misread::Range),
        heap,
    );
    refused(
        &rt,
        b"total 8\nstore 1 4294967296\n",
        2,
        Reason::Field(Misread::Range),
        heap,
    );
    refused(
        &rt,
        b"total 8\napply 1 -2147483649\n",
        2,
        Reason::Field(Misread::Range),
        heap,
    );
    refused(
        &rt,
        b"flags 8\napply 1 65536\n",
        2,
        Reason::Field(Misread::Range),
        heap,
    );
    refused(
        &rt,
        b"peak 8\nstore 1 18446744073709551616\n",
        2,
        Reason::Field(Misread::Range),
        heap,
    );
}
