// A list of calls: a line with the operation and the number of cells, and then a line for each call.
ghost use Rattle.std.specs.Prelude.{◌≡◌, ◌-◌, ◌^◌, IfOk, MatchResult, ◌≢◌};
ghost use Rattle.notation.specs.Scales.{natural, Reads};
ghost use Rattle.call_list.specs.declared.faults.Reason.TheVariants.{Word, Operation as NoOperation};
ghost use Rattle.notation.specs.declared.Kind.{Kind};
ghost use Rattle.call_list.specs.declared.script.Verb.{Verb};
ghost use Rattle.call_list.specs.Script.{verb_word, kind_word, Cells, HeadLine, CallLine, Calls, Blamed};

use super::faults::{Fault, Reason, Stop};
use super::fields::{end_of_fields, next_field};
use layering::Call;
use notation::{Kind, Misread, Notation, read, read_number};
use std::alloc::Global;

// A call, by its word.
#[derive(Clone, Copy)]
enum Verb {
    Load,
    Store,
    Apply,
}

// What the first line says: the operation, and the number of cells.
pub fn read_head(line: &str) -> Result<(Kind, usize), Reason>
    ensures { IfOk result (λ h. HeadLine line.now h.0 h.1) }
{
    let mut fields = line.split_whitespace();
    let kind = read_kind(next_field(&mut fields)?)?;
    let cells = read_cells(next_field(&mut fields)?)?;
    end_of_fields(&mut fields)?;
    Ok((kind, cells))
}

// The call that a line says.
pub fn read_call<O: Notation>(line: &str) -> Result<Call<O::Value, O::Partial>, Reason>
    ensures { IfOk result (CallLine O.Notation.valued O.Notation.partialed line.now) }
{
    let mut fields = line.split_whitespace();
    let verb = read_verb(next_field(&mut fields)?)?;
    let place = read_place(next_field(&mut fields)?)?;
    let call = match verb {
        Verb::Load => Call::Load { place },
        Verb::Store => {
            let value = O::read_value(next_field(&mut fields)?)?;
            Call::Store { place, value }
        }
        Verb::Apply => {
            let partial = O::read_partial(next_field(&mut fields)?)?;
            Call::Apply { place, partial }
        }
    };
    end_of_fields(&mut fields)?;
    Ok(call)
}

// The calls of all lines but the first: each line says its call, or the first that says none is the fault.
pub fn read_calls<O: Notation>(
    text: &str,
    heap: Global,
) -> Result<Vec<Call<O::Value, O::Partial>>, Stop>
    ensures { MatchResult result (λ v. Calls O.Notation.valued O.Notation.partialed text.now v.items) (Blamed text.now) }
{
    let mut calls = Vec::new(heap);
    let mut lines = text.lines().enumerate();
    let _head = lines.next();
    for (index, line) in lines {
        calls.push(numbered::<O>(index + 1, line)?)?;
    }
    Ok(calls)
}

// The call that the line of this number says.
fn numbered<O: Notation>(number: usize, line: &str) -> Result<Call<O::Value, O::Partial>, Fault>
    ensures { MatchResult result (CallLine O.Notation.valued O.Notation.partialed line.now) (λ f. f.line ≡ number) }
{
    read_call::<O>(line).map_err(|reason| Fault {
        line: number,
        reason,
    })
}

fn read_kind(word: &str) -> Result<Kind, Reason>
    ensures { MatchResult result (λ k. word.now ≡ kind_word k) (λ e. (e ≡ NoOperation) × ((k : Kind) → word.now ≢ kind_word k)) }
{
    Kind::named(word.as_bytes()).ok_or(Reason::Operation)
}

fn read_verb(word: &str) -> Result<Verb, Reason>
    ensures { MatchResult result (λ v. word.now ≡ verb_word v) (λ e. (e ≡ Word) × ((v : Verb) → word.now ≢ verb_word v)) }
{
    match word {
        "load" => Ok(Verb::Load),
        "store" => Ok(Verb::Store),
        "apply" => Ok(Verb::Apply),
        _ => Err(Reason::Word),
    }
}

// A place may lie outside the cells: the home refuses it then.
fn read_place(field: &str) -> Result<usize, Misread>
    ensures { Reads (natural (2 ^ 64 - 1)) field.now result }
{
    read(field)
}

fn read_cells(field: &str) -> Result<usize, Reason>
    ensures { IfOk result (Cells field.now) }
{
    match read_number(field)? {
        // Proved to fit: `try_from` would add an error that never comes.
        cells @ 1..=65536 => Ok(cells as usize),
        _ => Err(Reason::Cells),
    }
}
