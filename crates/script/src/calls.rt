// The call that a line says.
ghost use Rattle.std.specs.Prelude.{◌≡◌};
ghost use Rattle.script.specs.Lines.{rest};
ghost use Rattle.script.specs.Calls.{index_from, request_from, said_from, call_of};

use super::faults::{FieldFault, LineFault};
use super::lines::Line;
use super::scripted::Scripted;
use super::words::{Verb, Wish};
use model::Call;
use tables::Request;

// The highest number of a party and of a cell that a line may name. A bench has fewer, and refuses the others.
const HIGHEST: usize = 65_535;

fn read_index(line: &mut Line) -> Result<usize, FieldFault>
    ensures value { result ≡ (index_from (rest line.old)).0 }
    ensures rest { rest line.new ≡ (index_from (rest line.old)).1 }
{
    line.natural(0, HIGHEST)
}

fn read_request<O: Scripted>(line: &mut Line) -> Result<Request<O::Value, O::Partial>, FieldFault>
    ensures value { result ≡ (request_from O.Scripted.values O.Scripted.partials (rest line.old)).0 }
    ensures rest { rest line.new ≡ (request_from O.Scripted.values O.Scripted.partials (rest line.old)).1 }
{
    let wish = line.word::<Wish>()?;
    let cell = read_index(line)?;
    Ok(match wish {
        Wish::Read => Request::Read { cell },
        Wish::Write => Request::Write {
            cell,
            value: O::read_value(line)?,
        },
        Wish::Update => Request::Update {
            cell,
            partial: O::read_partial(line)?,
        },
    })
}

// What comes after the verb, as far as the call goes.
fn read_fields<O: Scripted>(
    verb: Verb,
    line: &mut Line,
) -> Result<Call<O::Value, O::Partial>, FieldFault>
    ensures value { result ≡ (said_from O.Scripted.values O.Scripted.partials verb (rest line.old)).0 }
    ensures rest { rest line.new ≡ (said_from O.Scripted.values O.Scripted.partials verb (rest line.old)).1 }
{
    Ok(match verb {
        Verb::Post => Call::Post {
            party: read_index(line)?,
            request: read_request::<O>(line)?,
        },
        Verb::Advance => Call::Advance {
            cell: read_index(line)?,
        },
        Verb::Collect => Call::Collect {
            party: read_index(line)?,
        },
        Verb::Yield => {
            let party = read_index(line)?;
            let cell = read_index(line)?;
            Call::Yield { party, cell }
        }
        Verb::Settle => Call::Settle,
    })
}

pub fn read_call<O: Scripted>(
    number: usize,
    text: &[u8],
) -> Result<Call<O::Value, O::Partial>, LineFault>
    ensures { result ≡ call_of O.Scripted.values O.Scripted.partials number text.now }
{
    let mut line = Line::new(number, text);
    let verb = line.word::<Verb>()?;
    let call = read_fields::<O>(verb, &mut line)?;
    line.end()?;
    Ok(call)
}
