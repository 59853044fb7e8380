// Searches over the ways of a party: over a lent table of lines, and of a bench.
ghost use Rattle.std.specs.Prelude.{◌≡◌, ◌+◌, ◌*◌, ◌<◌, ◌≤◌, Bool, IfSome, length, position, slice_index_or};
ghost use Rattle.std.specs.Fn.{FnReturnsAt};
ghost use Rattle.tables.specs.declared.line.Line.{Line};
ghost use Rattle.tables.specs.declared.line.Line.TheVariants.{Invalid};
ghost use Rattle.party_set.specs.Searches.{first};
ghost use Rattle.model.specs.Searches.{own_hit_in, own_line_in, vacant_in};

use super::Bench;
use operation::Operation;
use tables::{Line, Request};

// The place of the first line that is sought, whatever test `sought` makes.
fn place_of<V: Copy, P: Copy, F: Fn(&Line<V, P>) -> bool>(
    lines: &[Line<V, P>],
    sought: F,
) -> Option<usize>
    requires { (f : F) (l : _) → F.pre f l }
    ensures within { IfSome result (λ i. i < length lines.now) }
    ensures first { (test : Line V P → Bool) → ((l : Line V P) (b : Bool) → FnReturnsAt F.Fn sought l b → b ≡ test l) → result ≡ position test lines.now }
{
    lines.iter().position(sought)
}

// The first line that is sought among `count` lines from `from` on.
pub fn find_line<V: Copy, P: Copy, F: Fn(&Line<V, P>) -> bool>(
    lines: &[Line<V, P>],
    from: usize,
    count: usize,
    sought: F,
) -> Option<usize>
    requires within { from + count ≤ length lines.now }
    requires callable { (f : F) (l : _) → F.pre f l }
    ensures { (test : Line V P → Bool) → ((l : Line V P) (b : Bool) → FnReturnsAt F.Fn sought l b → b ≡ test l) → result ≡ first (λ i. test (slice_index_or lines.now i Invalid)) from count }
{
    place_of(&lines[from..from + count], sought).map(|place| from + place)
}

// The line that finishes the party's request as it stands.
pub fn own_hit<V: Copy, P: Copy>(
    lines: &[Line<V, P>],
    ways: usize,
    party: usize,
    request: Request<V, P>,
) -> Option<usize>
    requires { party * ways + ways ≤ length lines.now }
    ensures { result ≡ own_hit_in ways lines.now party request }
{
    find_line(lines, party * ways, ways, |line| line.hits(&request))
}

// The party's line of the cell.
pub fn own_line<V: Copy, P: Copy>(
    lines: &[Line<V, P>],
    ways: usize,
    party: usize,
    cell: usize,
) -> Option<usize>
    requires { party * ways + ways ≤ length lines.now }
    ensures { result ≡ own_line_in ways lines.now party cell }
{
    find_line(lines, party * ways, ways, |line| line.is_of(cell))
}

// The party's lowest Invalid way, as a line.
pub fn vacant_way<V: Copy, P: Copy>(
    lines: &[Line<V, P>],
    ways: usize,
    party: usize,
) -> Option<usize>
    requires { party * ways + ways ≤ length lines.now }
    ensures { result ≡ vacant_in ways lines.now party }
{
    find_line(lines, party * ways, ways, |line| !line.is_held())
}

impl<'a, O: Operation, H, R> Bench<'a, O, H, R> {
    ghost use Rattle.bench.specs.Lent.{HasWays};

    // The line that finishes the party's request as it stands.
    pub fn own_hit(&self, party: usize, request: Request<O::Value, O::Partial>) -> Option<usize>
        requires { HasWays self.now party }
        ensures { result ≡ own_hit_in self.now.ways self.now.lines.now party request }
    {
        own_hit(self.lines, self.ways, party, request)
    }

    // The party's line of the cell.
    pub fn own_line(&self, party: usize, cell: usize) -> Option<usize>
        requires { HasWays self.now party }
        ensures { result ≡ own_line_in self.now.ways self.now.lines.now party cell }
    {
        own_line(self.lines, self.ways, party, cell)
    }

    // The party's lowest Invalid way, as a line.
    pub fn vacant_way(&self, party: usize) -> Option<usize>
        requires { HasWays self.now party }
        ensures { result ≡ vacant_in self.now.ways self.now.lines.now party }
    {
        vacant_way(self.lines, self.ways, party)
    }
}
