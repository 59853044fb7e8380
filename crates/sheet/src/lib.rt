// Worked cases of the bench and its parts, proved of the definitions that the calls keep.
#![tactic(auto)]

ghost use Rattle.std.specs.Prelude.{◌≡◌};
ghost use Rattle.sheet.specs.Sheet.{SheetStands};

// How many worked cases there are; that they come out as written is promised with it.
pub fn cases() -> usize
    ensures count { result ≡ 9 }
    ensures stands { SheetStands }
{
    9
}
