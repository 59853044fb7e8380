// Numbers: decimal, without leading zeros, `+` or `-0`.
ghost use Rattle.std.specs.Prelude.{◌≡◌};
ghost use Rattle.script.specs.Numbers.{leads_with_zero, natural_of, whole_of};

// Whether a zero leads and is not all.
fn padded(text: &[u8]) -> bool
    ensures { result ≡ leads_with_zero text.now }
{
    matches!(text, [b'0', _, ..])
}

// The number that the text writes without a sign.
fn natural(text: &[u8]) -> Option<u64>
    ensures { result ≡ natural_of text.now }
{
    if text.starts_with(b"+") || padded(text) {
        return None;
    }
    std::str::from_utf8(text).ok()?.parse().ok()
}

// The number that the text writes, with a sign or without.
pub fn whole(text: &[u8]) -> Option<i128>
    ensures { result ≡ whole_of text.now }
{
    match text.strip_prefix(b"-") {
        Some(digits) => natural(digits).filter(|n| *n > 0).map(|n| -i128::from(n)),
        None => natural(text).map(i128::from),
    }
}
