// The reader of one line, which knows the line's number.
ghost use Rattle.std.specs.Prelude.{◌≡◌, ◌≤◌, ◌≤ℤ◌, IfOk};
ghost use Rattle.script.specs.Lines.{opened, rest, fault_at, word_from, number_from, natural_from, end_from};

use super::faults::{FieldFault, Wrong};
use super::fields::{Field, Fields};
use super::words::Vocabulary;

#[derive(Drop)]
pub struct Line<'a> {
    number: usize,
    fields: Fields<'a>,
}

impl<'a> Line<'a> {
    pub fn new(number: usize, line: &'a [u8]) -> Line<'a>
        ensures { rest result ≡ opened number line.now }
    {
        Line {
            number,
            fields: Fields::new(line),
        }
    }

    // What is wrong at a place of the line.
    fn fault(&self, place: usize, wrong: Wrong) -> FieldFault
        ensures { result ≡ fault_at self.now.number place wrong }
    {
        FieldFault {
            line: self.number,
            place,
            wrong,
        }
    }

    // One of the words that are due.
    pub fn word<W: Vocabulary>(&mut self) -> Result<W, FieldFault>
        ensures value { result ≡ (word_from W.Vocabulary.meant (rest self.old)).0 }
        ensures rest { rest self.new ≡ (word_from W.Vocabulary.meant (rest self.old)).1 }
    {
        match self.fields.next() {
            Field::Word { text, place } => W::named(text).ok_or(self.fault(place, Wrong::Word)),
            Field::Number { place, .. } => Err(self.fault(place, Wrong::Word)),
            Field::Missing { place } => Err(self.fault(place, Wrong::Missing)),
        }
    }

    // A number of the range. Two bounds, and no `RangeInclusive`: one that was iterated over holds nothing any more, and each
    // clause would have to rule that out.
    pub fn number(&mut self, least: i128, most: i128) -> Result<i128, FieldFault>
        ensures value { result ≡ (number_from least most (rest self.old)).0 }
        ensures rest { rest self.new ≡ (number_from least most (rest self.old)).1 }
        ensures within { IfOk result (λ z. (least ≤ℤ z) × (z ≤ℤ most)) }
    {
        match self.fields.next() {
            Field::Number { value, .. } if (least..=most).contains(&value) => Ok(value),
            Field::Number { place, .. } | Field::Word { place, .. } => {
                Err(self.fault(place, Wrong::Number))
            }
            Field::Missing { place } => Err(self.fault(place, Wrong::Missing)),
        }
    }

    // The same without a sign.
    pub fn natural(&mut self, least: usize, most: usize) -> Result<usize, FieldFault>
        ensures value { result ≡ (natural_from least most (rest self.old)).0 }
        ensures rest { rest self.new ≡ (natural_from least most (rest self.old)).1 }
        ensures most { IfOk result (λ n. n ≤ most) }
    {
        // `as`, which is proved to lose nothing here: a `try_from` would owe a fault for what cannot come.
        let number = self.number(least as i128, most as i128)?;
        Ok(number as usize)
    }

    // The end of the line.
    pub fn end(&mut self) -> Result<(), FieldFault>
        ensures value { result ≡ (end_from (rest self.old)).0 }
        ensures rest { rest self.new ≡ (end_from (rest self.old)).1 }
    {
        match self.fields.next() {
            Field::Missing { .. } => Ok(()),
            Field::Word { place, .. } | Field::Number { place, .. } => {
                Err(self.fault(place, Wrong::Extra))
            }
        }
    }
}
