// Operations by their names.
ghost use Rattle.std.specs.Prelude.{◌≡◌};
ghost use Rattle.notation.specs.Kinds.{kind_of};

// An operation that a text can name.
#[derive(Clone, Copy, PartialEq, Eq, Debug)]
pub enum Kind {
    Total,
    Peak,
    Flags,
}

impl Kind {
    // The operation that a word names.
    // (An `Option` and no `TryFrom`: what is wrong with an unknown word is for its reader to say.)
    pub fn named(word: &[u8]) -> Option<Kind>
        ensures { result ≡ kind_of word.now }
    {
        match word {
            b"total" => Some(Kind::Total),
            b"peak" => Some(Kind::Peak),
            b"flags" => Some(Kind::Flags),
            _ => None,
        }
    }
}
