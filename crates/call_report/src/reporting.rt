// The report on a list of calls.
ghost use Rattle.std.specs.Prelude.{◌≡◌, IfOk, string_bytes, MatchResult};
ghost use Rattle.call_list.specs.Script.{Blamed};
ghost use Rattle.call_report.specs.Inputs.{Reported, Answers};
ghost use Rattle.call_report.specs.Reports.{counts_line, reached_lines, verdict_line, report_text};

use super::comparison::{Comparison, compare};
use super::input::{head_of, text_of};
use call_list::{Stop, read_calls};
use layering::Counts;
use notation::{Kind, Notation};
use operation::{Flags, Peak, Total};
use std::alloc::{AllocError, Global};

// The report on the calls that an input lists.
pub fn report(input: &[u8], heap: Global) -> Result<String, Stop>
    ensures { IfOk result (λ s. Answers input.now (string_bytes s)) }
{
    let text = text_of(input)?;
    let (kind, cells) = head_of(text)?;
    match kind {
        Kind::Total => report_on::<Total>(text, cells, heap),
        Kind::Peak => report_on::<Peak>(text, cells, heap),
        Kind::Flags => report_on::<Flags>(text, cells, heap),
    }
}

// The report on the calls of a text, whose first line says so many cells of this operation.
fn report_on<O: Notation>(text: &str, cells: usize, heap: Global) -> Result<String, Stop>
    ensures { MatchResult result (λ s. Reported O.Operation.algebra O.Notation.valued O.Notation.partialed O.Shown.shown text.now cells (string_bytes s)) (Blamed text.now) }
{
    let calls = read_calls::<O>(text, heap)?;
    let comparison = compare::<O>(cells, calls.as_slice(), heap)?;
    Ok(report_text(cells, &comparison, heap)?)
}

fn report_text(size: usize, comparison: &Comparison, heap: Global) -> Result<String, AllocError>
    ensures { IfOk result (λ s. string_bytes s ≡ report_text size comparison.now) }
{
    let answers = &comparison.answers;
    let reached = reached_lines(comparison, heap)?;
    let cells = &comparison.cells;
    let verdict = verdict_line(comparison.agree);
    format!(in heap;
        "{answers}reached the cells, with what the registers sent down in the end:\n{reached}cells in the end that are not 0, of {size}:\n{cells}{verdict}"
    )
}

fn reached_lines(comparison: &Comparison, heap: Global) -> Result<String, AllocError>
    ensures { IfOk result (λ s. string_bytes s ≡ reached_lines comparison.now) }
{
    let plain = counts_line("plain cells", comparison.plain, heap)?;
    let one = counts_line("one register", comparison.one, heap)?;
    let two = counts_line("two registers", comparison.two, heap)?;
    format!(in heap; "{plain}{one}{two}")
}

fn counts_line(pile: &str, counts: Counts, heap: Global) -> Result<String, AllocError>
    ensures { IfOk result (λ s. string_bytes s ≡ counts_line pile.now counts) }
{
    let loads = counts.loads;
    let stores = counts.stores;
    let applies = counts.applies;
    format!(in heap; "{pile}: {loads} loads, {stores} stores, {applies} applies\n")
}

fn verdict_line(agree: bool) -> &'static str
    ensures { result.now ≡ verdict_line agree }
{
    if agree {
        "the piles agree\n"
    } else {
        "the piles differ\n"
    }
}
