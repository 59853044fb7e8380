// A long list of calls with contention: every party posts in turn, mostly for a few hot cells, has the cell advanced,
// and collects what it can. A party stays with a cell for some turns, so that what is not granted at once is later.
use model::Call;
use operation::{Count, Delta};
use std::alloc::{AllocError, Global};
use tables::Request;

pub const PARTIES: u8 = 16;

pub const WAYS: u8 = 8;

pub const CELLS: u16 = 256;

// Of sixteen posts fifteen are for one of so many cells.
const HOT_CELLS: u64 = 24;

// Numbers that look random (Knuth's linear congruential generator); the same on every machine.
#[derive(Drop)]
struct Dice {
    state: u64,
}

impl Dice {
    fn roll(&mut self, below: u64) -> u64 {
        self.state = self
            .state
            .wrapping_mul(6364136223846793005)
            .wrapping_add(1442695040888963407);
        if below == 0 {
            0
        } else {
            (self.state >> 33) % below
        }
    }
}

// A party changes its cell after so many of its turns.
const TURNS_WITH_A_CELL: usize = 4;

const CALLS_IN_A_TURN: usize = 5;

fn some_cell(dice: &mut Dice) -> usize {
    let hot = dice.roll(16) < 15;
    dice.roll(if hot { HOT_CELLS } else { u64::from(CELLS) }) as usize
}

fn request(dice: &mut Dice, cell: usize) -> Request<Count, Delta> {
    match dice.roll(8) {
        0 => Request::Write {
            cell,
            value: Count::new(7),
        },
        1 | 2 => Request::Read { cell },
        _ => Request::Update {
            cell,
            partial: Delta::new(1),
        },
    }
}

// At least so many calls, and a settle at the end, which is refused where a request is still under way.
pub fn contended(count: usize, heap: Global) -> Result<Vec<Call<Count, Delta>>, AllocError> {
    let mut dice = Dice { state: 20151205 };
    let mut cells = [0; PARTIES as usize];
    let mut calls = Vec::new(heap);
    for turn in 0..count / CALLS_IN_A_TURN + 1 {
        let party = turn % usize::from(PARTIES);
        if turn / usize::from(PARTIES) % TURNS_WITH_A_CELL == 0 {
            cells[party] = some_cell(&mut dice);
        }
        let cell = cells[party];
        let request = request(&mut dice, cell);
        calls.push(Call::Post { party, request })?;
        calls.push(Call::Advance { cell })?;
        calls.push(Call::Advance { cell })?;
        calls.push(Call::Advance { cell })?;
        calls.push(Call::Collect { party })?;
    }
    calls.push(Call::Settle)?;
    Ok(calls)
}
