// Answers, counts and cells as text.
ghost use Rattle.std.specs.Prelude.{◌≡◌, IfOk, string_bytes};
ghost use Rattle.call_report.specs.Texts.{numbered, said, answer_line, answer_lines, cell_line, cell_lines};

use layering::Answer;
use notation::Shown;
use std::alloc::{AllocError, Global};

// The answers, a line for each, with the number of the line of its call.
pub fn answer_lines<O: Shown>(
    answers: &[Answer<O::Value>],
    heap: Global,
) -> Result<String, AllocError>
    ensures { IfOk result (λ s. string_bytes s ≡ answer_lines O.Shown.shown answers.now) }
{
    let mut lines = String::new(heap);
    for (before, answer) in answers.iter().enumerate() {
        lines.push_str(answer_line::<O>(before, *answer, heap)?.as_str())?;
    }
    Ok(lines)
}

// The first call stands on line 2.
fn answer_line<O: Shown>(
    before: usize,
    answer: Answer<O::Value>,
    heap: Global,
) -> Result<String, AllocError>
    ensures { IfOk result (λ s. string_bytes s ≡ answer_line O.Shown.shown before answer) }
{
    numbered_line(
        before.saturating_add(2),
        answer_text::<O>(answer, heap)?.as_str(),
        heap,
    )
}

fn answer_text<O: Shown>(answer: Answer<O::Value>, heap: Global) -> Result<String, AllocError>
    ensures { IfOk result (λ s. string_bytes s ≡ said O.Shown.shown answer) }
{
    match answer {
        Answer::Value(value) => O::show(value, heap),
        Answer::Done => String::from_str(heap, "done"),
        Answer::Refused(refusal) => {
            let number = refusal.number();
            format!(in heap; "refused {number}")
        }
    }
}

// The cells that are not 0, a line for each.
// One loop over a closure for these and the answers would be no plainer: its contract needs a definition of what the closure may write.
pub fn cell_lines<O: Shown>(values: &[O::Value], heap: Global) -> Result<String, AllocError>
    ensures { IfOk result (λ s. string_bytes s ≡ cell_lines O.Shown.shown values.now) }
{
    let mut lines = String::new(heap);
    for (place, value) in values.iter().enumerate() {
        lines.push_str(cell_line::<O>(place, *value, heap)?.as_str())?;
    }
    Ok(lines)
}

fn cell_line<O: Shown>(place: usize, value: O::Value, heap: Global) -> Result<String, AllocError>
    ensures { IfOk result (λ s. string_bytes s ≡ cell_line O.Shown.shown place value) }
{
    let shown = O::show(value, heap)?;
    if shown.as_str() == "0" {
        return Ok(String::new(heap));
    }
    numbered_line(place, shown.as_str(), heap)
}

fn numbered_line(number: usize, text: &str, heap: Global) -> Result<String, AllocError>
    ensures { IfOk result (λ s. string_bytes s ≡ numbered number text.now) }
{
    format!(in heap; "{number} {text}\n")
}
