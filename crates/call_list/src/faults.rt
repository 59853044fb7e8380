// Why a list of calls is not read.
ghost use Rattle.std.specs.Prelude.{◌≡◌};
ghost use Rattle.call_list.specs.declared.faults.Reason.TheVariants.{Field};
ghost use Rattle.call_list.specs.declared.faults.Stop.TheVariants.{Input, Memory};

use notation::Misread;
use std::alloc::{AllocError, AllocFailed};
use thiserror::Error;

// What is wrong with a line.
#[derive(Clone, Copy, PartialEq, Eq, Debug, Error)]
pub enum Reason {
    #[error("the input is empty")]
    Empty,
    #[error("the input is too long")]
    Long,
    #[error("the input is not UTF-8 text")]
    Text,
    // The first word of the input names no operation.
    #[error("the operation is not total, peak or flags")]
    Operation,
    #[error("the number of cells is not from 1 to 65536")]
    Cells,
    // The first word of a line names no call.
    #[error("the call is not load, store or apply")]
    Word,
    #[error("a field is missing")]
    Missing,
    #[error("there is a field too many")]
    Extra,
    // A field is not the number that it should be.
    #[error("{0}")]
    Field(Misread),
}

// A line that was not read, by its number from 1 on.
#[derive(Clone, Copy, PartialEq, Eq, Debug, Error)]
#[error("line {line}: {reason}")]
pub struct Fault {
    pub line: usize,
    pub reason: Reason,
}

// Why there are no calls.
#[derive(Clone, Copy, PartialEq, Eq, Debug, Error)]
pub enum Stop {
    #[error("{0}")]
    Input(Fault),
    #[error("out of memory")]
    Memory,
}

// Written out, since what `#[from]` writes promises nothing of the error that it makes.
impl From<Misread> for Reason {
    ghost from_gives = { λ misread r. r ≡ Field misread };

    fn from(misread: Misread) -> Reason {
        Reason::Field(misread)
    }
}

impl From<Fault> for Stop {
    ghost from_gives = { λ fault r. r ≡ Input fault };

    fn from(fault: Fault) -> Stop {
        Stop::Input(fault)
    }
}

impl From<AllocError> for Stop {
    ghost from_gives = { λ _ r. r ≡ Memory };

    fn from(_none: AllocError) -> Stop {
        Stop::Memory
    }
}

impl<T: Drop> From<AllocFailed<T>> for Stop {
    ghost from_gives = { λ _ r. r ≡ Memory };

    fn from(_value: AllocFailed<T>) -> Stop {
        Stop::Memory
    }
}
