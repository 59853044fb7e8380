// The fields of a line, which are read one at a time.
ghost use Rattle.std.specs.Prelude.{◌≤◌, [], length, unwrap_or};
ghost use Rattle.std.specs.Option.{option_copied};

use super::cuts::split_once;
use super::numbers::whole;

// A part of the script, with its place in bytes from 0 in its line.
#[derive(Clone, Copy, Debug)]
pub enum Field<'a> {
    // Anything but a number, the empty field too.
    Word { text: &'a [u8], place: usize },
    Number { value: i128, place: usize },
    // The line has no further field; the place is its end.
    Missing { place: usize },
}

#[derive(Drop)]
pub struct Fields<'a> {
    // The line's length.
    end: usize,
    // The line from the next field on; nothing after the last.
    rest: Option<&'a [u8]>,
    pub ghost within: { length (unwrap_or (option_copied rest) []) ≤ end },
}

impl<'a> Fields<'a> {
    ghost use Rattle.std.specs.Prelude.{◌≡◌, length, drop};
    ghost use Rattle.script.specs.Cuts.{fields};
    ghost use Rattle.script.specs.Fields.{left, end, seen, first};

    pub fn new(line: &'a [u8]) -> Fields<'a>
        ensures end { end result ≡ length line.now }
        ensures all { left result ≡ fields line.now }
    {
        Fields {
            end: line.len(),
            rest: Some(line),
        }
    }

    pub fn next(&mut self) -> Field<'a>
        ensures end { end self.new ≡ end self.old }
        ensures first { seen result ≡ first (end self.old) (left self.old) }
        ensures rest { left self.new ≡ drop 1 (left self.old) }
    {
        let Some(rest) = self.rest else {
            return Field::Missing { place: self.end };
        };
        let place = self.end - rest.len();
        let (text, rest) = split_once(rest, b' ');
        self.rest = rest;
        match whole(text) {
            Some(value) => Field::Number { value, place },
            None => Field::Word { text, place },
        }
    }
}
