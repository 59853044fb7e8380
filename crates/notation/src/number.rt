// Numbers as fields.
ghost use Rattle.std.specs.Prelude.{◌≡◌};
ghost use Rattle.std.specs.Int.{w128};
ghost use Rattle.std.specs.Str.Parse.{ParsesSigned, error_kind};
ghost use Rattle.notation.specs.declared.number.Misread.TheVariants.{Range};
ghost use Rattle.notation.specs.Numbers.{misread_of, Converts};

use std::num::{IntErrorKind, ParseIntError, TryFromIntError};
use thiserror::Error;

// Why a field is not read.
#[derive(Clone, Copy, PartialEq, Eq, Debug, Error)]
pub enum Misread {
    #[error("a field is not a decimal number")]
    Number,
    #[error("a number is out of range")]
    Range,
}

// Text that is not read as a number of 128 bits.
impl From<ParseIntError> for Misread {
    ghost from_gives = { λ unread r. r ≡ misread_of (error_kind unread) };

    fn from(unread: ParseIntError) -> Misread {
        match unread.kind() {
            IntErrorKind::PosOverflow | IntErrorKind::NegOverflow => Misread::Range,
            _ => Misread::Number,
        }
    }
}

// A number that its type has no room for.
impl From<TryFromIntError> for Misread {
    ghost from_gives = { λ _ r. r ≡ Range };

    fn from(_narrow: TryFromIntError) -> Misread {
        Misread::Range
    }
}

// The number that a field writes, with a sign or without.
pub fn read_number(field: &str) -> Result<i128, Misread>
    ensures { ParsesSigned w128 10 field.now result }
{
    Ok(field.parse::<i128>()?)
}

// The value of a narrower type that is the number that a field writes.
pub fn read<T: TryFrom<i128, Error = TryFromIntError>>(field: &str) -> Result<T, Misread>
    ensures { Converts T.try_from_gives field.now result }
{
    Ok(T::try_from(read_number(field)?)?)
}
