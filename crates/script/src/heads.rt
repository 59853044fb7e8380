// The bench that the first line describes.
ghost use Rattle.std.specs.Prelude.{◌≡◌};
ghost use Rattle.script.specs.Heads.{bench_of};

use super::faults::NoBench;
use super::lines::Line;
use super::words::{Opening, Ranking};
use notation::Kind;

// The most parties, ways and cells of a bench.
const MOST_PARTIES: usize = 16;

const MOST_WAYS: usize = 8;

const MOST_CELLS: usize = 256;

#[derive(Clone, Copy, PartialEq, Eq, Debug)]
pub struct Head {
    pub kind: Kind,
    // 1 to 16
    pub parties: u8,
    // 1 to 8
    pub ways: u8,
    // 1 to 256
    pub cells: u16,
    pub ranking: Ranking,
}

pub fn read_bench(text: &[u8]) -> Result<Head, NoBench>
    ensures { result ≡ bench_of text.now }
{
    let mut line = Line::new(1, text);
    line.word::<Opening>()?;
    // `as`, since the limits are proved to fit: a `try_from` would owe a fault for what cannot come.
    let head = Head {
        kind: line.word()?,
        parties: line.natural(1, MOST_PARTIES)? as u8,
        ways: line.natural(1, MOST_WAYS)? as u8,
        cells: line.natural(1, MOST_CELLS)? as u16,
        ranking: line.word()?,
    };
    line.end()?;
    Ok(head)
}
