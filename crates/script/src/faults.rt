// What is wrong with a script, from a field up to the play.
ghost use Rattle.std.specs.Prelude.{◌≡◌};
ghost use Rattle.script.specs.Faults.{to_line, number_of, cause_of, broken};
ghost use Rattle.script.specs.declared.faults.PlayFault.TheVariants.{Script, Memory};

use std::alloc::{AllocError, AllocFailed};

// How a field fails what is due at its place.
#[derive(Clone, Copy, PartialEq, Eq, Debug)]
pub enum Wrong {
    // It is not one of the words.
    Word,
    // It is no number, or one out of range.
    Number,
    // It is not there.
    Missing,
    // Nothing is due.
    Extra,
}

// A conversion cannot know the line, so a field's fault has it already.
#[derive(Clone, Copy, PartialEq, Eq, Debug)]
pub struct FieldFault {
    pub line: usize,
    pub place: usize,
    pub wrong: Wrong,
}

#[derive(Clone, Copy, PartialEq, Eq, Debug)]
pub enum Cause {
    // The script is too long, or its first line describes no bench.
    Broken = 21,
    Word = 22,
    Number = 23,
    Fields = 24,
}

impl Cause {
    // The number that a fault is printed with.
    pub fn number(self) -> u8
        ensures { result ≡ number_of self }
    {
        self as u8
    }
}

impl From<Wrong> for Cause {
    ghost from_gives = { λ wrong cause. cause ≡ cause_of wrong };

    fn from(wrong: Wrong) -> Cause {
        match wrong {
            Wrong::Word => Cause::Word,
            Wrong::Number => Cause::Number,
            Wrong::Missing | Wrong::Extra => Cause::Fields,
        }
    }
}

// Lines are counted from 1, places in bytes from 0 in the line. A type of its own beside `FieldFault`, since each layer's
// faults go into the next one's by `?`.
#[derive(Clone, Copy, PartialEq, Eq, Debug)]
pub struct LineFault {
    pub line: usize,
    pub place: usize,
    pub cause: Cause,
}

impl From<FieldFault> for LineFault {
    ghost from_gives = { λ e r. r ≡ to_line e };

    fn from(e: FieldFault) -> LineFault {
        LineFault {
            line: e.line,
            place: e.place,
            cause: e.wrong.into(),
        }
    }
}

// The first line describes no bench; which of its fields is wrong does not matter.
#[derive(Clone, Copy, PartialEq, Eq, Debug)]
pub struct NoBench;

impl From<FieldFault> for NoBench {
    fn from(_e: FieldFault) -> NoBench {
        NoBench
    }
}

impl From<NoBench> for LineFault {
    ghost from_gives = { λ _ r. r ≡ broken };

    fn from(_e: NoBench) -> LineFault {
        LineFault {
            line: 1,
            place: 0,
            cause: Cause::Broken,
        }
    }
}

// Why a play ends before its script does.
#[derive(Clone, Copy, PartialEq, Eq, Debug)]
pub enum PlayFault {
    Script(LineFault),
    Memory(AllocError),
}

impl From<LineFault> for PlayFault {
    ghost from_gives = { λ e r. r ≡ Script e };

    fn from(e: LineFault) -> PlayFault {
        PlayFault::Script(e)
    }
}

impl From<AllocError> for PlayFault {
    ghost from_gives = { λ e r. r ≡ Memory e };

    fn from(e: AllocError) -> PlayFault {
        PlayFault::Memory(e)
    }
}

impl<T: Drop> From<AllocFailed<T>> for PlayFault {
    ghost from_gives = { λ _ r. r ≡ Memory (record {}) };

    fn from(e: AllocFailed<T>) -> PlayFault {
        PlayFault::Memory(e.into())
    }
}
