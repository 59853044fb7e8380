// The same calls on three piles, compared.
ghost use Rattle.std.specs.Prelude.{◌≡◌, replicate, IfOk, string_bytes};
ghost use Rattle.memory.specs.Row.{counted};
ghost use Rattle.layering.specs.Plays.{answered, finally};
ghost use Rattle.call_report.specs.Reports.{Compared};
ghost use Rattle.call_report.specs.Texts.{answer_lines, cell_lines};

use super::texts::{answer_lines, cell_lines};
use layering::{Call, Counts};
use memory::Combining;
use notation::Notation;
use piles::{Bare, Outcome, Pile, play_on};
use std::alloc::{AllocError, Global};

// A play as it is printed.
#[derive(PartialEq, Eq, Drop)]
struct Sheet {
    answers: String,
    cells: String,
}

// The answers and the cells in the end, what reached the cells under each pile, and whether all piles gave the same.
#[derive(Drop)]
pub struct Comparison {
    pub answers: String,
    pub cells: String,
    pub plain: Counts,
    pub one: Counts,
    pub two: Counts,
    pub agree: bool,
}

// That the piles agree is proved for all calls; the run compares them all the same.
pub fn compare<O: Notation>(
    cells: usize,
    calls: &[Call<O::Value, O::Partial>],
    heap: Global,
) -> Result<Comparison, AllocError>
    ensures { IfOk result (Compared O.Operation.algebra O.Shown.shown cells calls.now) }
{
    let zero = O::zero();
    let (sheet, plain) = played::<O, Bare<O>>(zero, cells, calls, heap)?;
    let (first, one) = played::<O, Combining<O, Bare<O>>>(zero, cells, calls, heap)?;
    let (second, two) = played::<O, Combining<O, Combining<O, Bare<O>>>>(zero, cells, calls, heap)?;
    let agree = sheet == first && sheet == second;
    Ok(Comparison {
        answers: sheet.answers,
        cells: sheet.cells,
        plain,
        one,
        two,
        agree,
    })
}

// The calls, played on a pile of cells that hold one value: as it is printed, and what reached the cells.
fn played<O: Notation, P: Pile<O>>(
    value: O::Value,
    cells: usize,
    calls: &[Call<O::Value, O::Partial>],
    heap: Global,
) -> Result<(Sheet, Counts), AllocError>
    ensures answers { IfOk result (λ p. string_bytes p.0.answers ≡ answer_lines O.Shown.shown (answered O.Operation.algebra calls.now (counted (replicate cells value)))) }
    ensures cells { IfOk result (λ p. string_bytes p.0.cells ≡ cell_lines O.Shown.shown (finally O.Operation.algebra calls.now (counted (replicate cells value)))) }
{
    let mut row = Vec::new(heap);
    row.resize(cells, value)?;
    printed::<O>(play_on::<O, P>(row, calls, heap)?, heap)
}

// What reached the cells stands beside the sheet, since piles that agree differ in it.
fn printed<O: Notation>(
    outcome: Outcome<O::Value>,
    heap: Global,
) -> Result<(Sheet, Counts), AllocError>
    ensures { IfOk result (λ p. (string_bytes p.0.answers ≡ answer_lines O.Shown.shown outcome.answers.items) × (string_bytes p.0.cells ≡ cell_lines O.Shown.shown outcome.values.items) × (p.1 ≡ outcome.reached)) }
{
    let sheet = Sheet {
        answers: answer_lines::<O>(outcome.answers.as_slice(), heap)?,
        cells: cell_lines::<O>(outcome.values.as_slice(), heap)?,
    };
    Ok((sheet, outcome.reached))
}
