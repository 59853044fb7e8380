// The words of a script.
ghost use Rattle.std.specs.Prelude.{◌≡◌, ℕ, List, Option};
ghost use Rattle.notation.specs.Kinds.{kind_of};
ghost use Rattle.script.specs.Words.{opening_of, ranking_of, verb_of, wish_of};

use notation::Kind;

// What one of several words may stand for. Not `TryFrom`, which says what comes as a relation: `meant` is a function, and
// a line's clauses compute with it.
pub trait Vocabulary {
    ghost meant: { List ℕ → Option Self };

    fn named(text: &[u8]) -> Option<Self>
        ensures { result ≡ meant text.now };
}

// The word that a script begins with.
#[derive(Clone, Copy, PartialEq, Eq, Debug)]
pub enum Opening {
    Bench,
}

impl Vocabulary for Opening {
    ghost meant = { opening_of };

    fn named(text: &[u8]) -> Option<Opening> {
        match text {
            b"bench" => Some(Opening::Bench),
            _ => None,
        }
    }
}

// The operations that a script can name: all that have a name.
impl Vocabulary for Kind {
    ghost meant = { kind_of };

    fn named(text: &[u8]) -> Option<Kind> {
        Kind::named(text)
    }
}

// The victim rules that a script can name.
#[derive(Clone, Copy, PartialEq, Eq, Debug)]
pub enum Ranking {
    Rotate,
    Oldest,
}

impl Vocabulary for Ranking {
    ghost meant = { ranking_of };

    fn named(text: &[u8]) -> Option<Ranking> {
        match text {
            b"rotate" => Some(Ranking::Rotate),
            b"oldest" => Some(Ranking::Oldest),
            _ => None,
        }
    }
}

// What a call does.
#[derive(Clone, Copy, PartialEq, Eq, Debug)]
pub enum Verb {
    Post,
    Advance,
    Collect,
    Yield,
    Settle,
}

impl Vocabulary for Verb {
    ghost meant = { verb_of };

    fn named(text: &[u8]) -> Option<Verb> {
        match text {
            b"post" => Some(Verb::Post),
            b"advance" => Some(Verb::Advance),
            b"collect" => Some(Verb::Collect),
            b"yield" => Some(Verb::Yield),
            b"settle" => Some(Verb::Settle),
            _ => None,
        }
    }
}

// What a post asks for.
#[derive(Clone, Copy, PartialEq, Eq, Debug)]
pub enum Wish {
    Read,
    Write,
    Update,
}

impl Vocabulary for Wish {
    ghost meant = { wish_of };

    fn named(text: &[u8]) -> Option<Wish> {
        match text {
            b"read" => Some(Wish::Read),
            b"write" => Some(Wish::Write),
            b"update" => Some(Wish::Update),
            _ => None,
        }
    }
}
