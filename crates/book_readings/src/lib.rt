// Worked readings of the book, the trace and the bench over a book, computed together by the checker from the definitions that the contracts cite.
#![tactic(auto)]

ghost use Rattle.std.specs.Prelude.{◌≡◌};
ghost use Rattle.book_readings.specs.Readings.{Readings};

// How many readings stand.
pub fn book_readings() -> u8
    ensures stand { Readings }
    ensures value { result ≡ 3 }
{
    3
}
