// The operations that a script can name.
ghost use Rattle.std.specs.Prelude.{◌≡◌, ◌-◌, ◌^◌, Result};
ghost use Rattle.script.specs.declared.faults.FieldFault.{FieldFault};
ghost use Rattle.script.specs.Lines.{Rest, rest};
ghost use Rattle.script.specs.Scales.{counts, deltas, naturals};

use super::faults::FieldFault;
use super::lines::Line;
use operation::{Count, Delta, Flags, Operation, Peak, Total};

// An operation whose values and partials are read from a line, each from as many fields as it takes.
// `values` and `partials` say what the fields to come are read as, and which are left.
pub trait Scripted: Operation {
    ghost values: { Rest → Result Self.Value FieldFault × Rest };

    ghost partials: { Rest → Result Self.Partial FieldFault × Rest };

    fn read_value(line: &mut Line) -> Result<Self::Value, FieldFault>
        ensures value { result ≡ (values (rest line.old)).0 }
        ensures rest { rest line.new ≡ (values (rest line.old)).1 };

    fn read_partial(line: &mut Line) -> Result<Self::Partial, FieldFault>
        ensures value { result ≡ (partials (rest line.old)).0 }
        ensures rest { rest line.new ≡ (partials (rest line.old)).1 };
}

// Below, `as` narrows a number whose range was tested, which is proved to lose nothing: a `try_from` would owe a fault
// for what cannot come.
impl Scripted for Total {
    ghost values = { counts };

    ghost partials = { deltas };

    fn read_value(line: &mut Line) -> Result<Count, FieldFault> {
        let number = line.number(0, i128::from(u32::MAX))?;
        Ok(Count::new(number as u32))
    }

    fn read_partial(line: &mut Line) -> Result<Delta, FieldFault> {
        let number = line.number(i128::from(i32::MIN), i128::from(i32::MAX))?;
        Ok(Delta::new(number as i32))
    }
}

// Peak and Flags differ in the range of their numbers alone, and one call each is left. One function for both would convert
// by `TryFrom`, whose refusal knows no place in the line.
impl Scripted for Peak {
    ghost values = { naturals (2 ^ 64 - 1) };

    ghost partials = { naturals (2 ^ 64 - 1) };

    fn read_value(line: &mut Line) -> Result<u64, FieldFault> {
        Ok(line.natural(0, usize::MAX)? as u64)
    }

    fn read_partial(line: &mut Line) -> Result<u64, FieldFault> {
        Self::read_value(line)
    }
}

impl Scripted for Flags {
    ghost values = { naturals (2 ^ 16 - 1) };

    ghost partials = { naturals (2 ^ 16 - 1) };

    fn read_value(line: &mut Line) -> Result<u16, FieldFault> {
        Ok(line.natural(0, usize::from(u16::MAX))? as u16)
    }

    fn read_partial(line: &mut Line) -> Result<u16, FieldFault> {
        Self::read_value(line)
    }
}
