// Texts cut at a separator.
ghost use Rattle.std.specs.Prelude.{◌≡◌, ◌∷◌, ◌++◌};
ghost use Rattle.std.specs.Option.{option_copied};
ghost use Rattle.script.specs.Cuts.{lines, lines_left, parts, tail, tail_parts};

// What comes before the first separator, and what comes after it, if there is one.
pub fn split_once(bytes: &[u8], separator: u8) -> (&[u8], Option<&[u8]>)
    ensures parts { parts separator bytes.now ≡ result.0.now ∷ tail_parts separator (option_copied result.1) }
    ensures whole { bytes.now ≡ result.0.now ++ tail separator (option_copied result.1) }
{
    match bytes.iter().position(|b| *b == separator) {
        Some(i) => (&bytes[..i], Some(&bytes[i + 1..])),
        None => (bytes, None),
    }
}

// The lines of a script that are still to come.
#[derive(Drop)]
pub struct Lines<'a>(&'a [u8]);

impl<'a> Lines<'a> {
    pub fn new(script: &'a [u8]) -> Lines<'a>
        ensures { lines_left result ≡ lines script.now }
    {
        Lines(script)
    }
}

impl<'a> Iterator for Lines<'a> {
    ghost use Rattle.std.specs.Iterator.{YieldsFirstRef, item_count};

    type Item = &'a [u8];

    ghost next_gives = { YieldsFirstRef lines_left };

    ghost remaining = { item_count lines_left };

    fn next(&mut self) -> Option<&'a [u8]> {
        if self.0.is_empty() {
            return None;
        }
        let (line, rest) = split_once(self.0, b'\n');
        // After a final line feed comes no further line.
        self.0 = rest.unwrap_or(&[]);
        Some(line)
    }
}
