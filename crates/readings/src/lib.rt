// Worked readings, computed together by the checker from the definitions that the contracts cite.
#![tactic(auto)]

ghost use Rattle.std.specs.Prelude.{◌≡◌};
ghost use Rattle.readings.specs.Readings.{Readings};

// How many readings stand.
pub fn readings() -> u8
    ensures stand { Readings }
    ensures value { result ≡ 26 }
{
    26
}
