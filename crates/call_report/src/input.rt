// The text of a list of calls, and its first line.
ghost use Rattle.std.specs.Prelude.{◌≡◌, ◌+◌, ◌≤◌, length, take, IfOk, count_by, IfErr};
ghost use Rattle.call_report.specs.Inputs.{line_feed, Headed};

use call_list::{Fault, Reason, read_head};
use notation::Kind;

// The most bytes that are taken.
pub const MOST: usize = 1 << 20;

// The input as text.
pub fn text_of(input: &[u8]) -> Result<&str, Fault>
    ensures { IfOk result (λ t. t.now ≡ input.now) }
{
    if input.len() > MOST {
        return Err(Fault {
            line: line_at(input, MOST),
            reason: Reason::Long,
        });
    }
    std::str::from_utf8(input).map_err(|e| Fault {
        line: line_at(input, e.valid_up_to()),
        reason: Reason::Text,
    })
}

// What the first line of a text says.
pub fn head_of(text: &str) -> Result<(Kind, usize), Fault>
    ensures head { IfOk result (λ h. Headed text.now h.0 h.1) }
    ensures blamed { IfErr result (λ f. f.line ≡ 1) }
{
    read_first(text).map_err(|reason| Fault { line: 1, reason })
}

fn read_first(text: &str) -> Result<(Kind, usize), Reason>
    ensures { IfOk result (λ h. Headed text.now h.0 h.1) }
{
    read_head(text.lines().next().ok_or(Reason::Empty)?)
}

// The number of the line that has the byte at a place.
fn line_at(input: &[u8], place: usize) -> usize
    ensures { result ≡ count_by line_feed (take place input.now) + 1 }
{
    line_feeds(&input[..place.min(input.len())]) + 1
}

// A loop, and no `filter` and `count`: of a loop the compiler makes steps of many bytes, and an input that is refused may
// be long.
fn line_feeds(bytes: &[u8]) -> usize
    ensures value { result ≡ count_by line_feed bytes.now }
    ensures bound { result ≤ length bytes.now }
{
    let mut feeds = 0usize;
    for byte in bytes {
        if *byte == b'\n' {
            feeds += 1;
        }
    }
    feeds
}
