// The fields of a line.
ghost use Rattle.std.specs.Prelude.{◌≡◌, [], MatchResult};
ghost use Rattle.std.specs.Str.Iter.{split_whitespace_rest};
ghost use Rattle.call_list.specs.declared.faults.Reason.TheVariants.{Missing, Extra};
ghost use Rattle.call_list.specs.Fields.{First, Words};

use super::faults::Reason;
use std::str::SplitWhitespace;

// The next field.
pub fn next_field<'a>(fields: &mut SplitWhitespace<'a>) -> Result<&'a str, Reason>
    ensures { MatchResult result (λ x. First (split_whitespace_rest fields.old) x.now (split_whitespace_rest fields.new)) (λ e. (e ≡ Missing) × Words (split_whitespace_rest fields.old) []) }
{
    fields.next().ok_or(Reason::Missing)
}

// Nothing, if there is no further field.
pub fn end_of_fields(fields: &mut SplitWhitespace) -> Result<(), Reason>
    ensures { MatchResult result (λ _. Words (split_whitespace_rest fields.old) []) (λ e. e ≡ Extra) }
{
    // A match says it plainer than `map_or` would.
    match fields.next() {
        None => Ok(()),
        Some(_) => Err(Reason::Extra),
    }
}
