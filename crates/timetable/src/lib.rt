// Base hours and timetables. A timetable always has an open hour; `wait` finds the next one, proved to be the
// smallest open hour that is not earlier, less than a week away.
#![tactic(auto)]

mod table;
mod week;

pub use table::{BaseHour, Timetable};
