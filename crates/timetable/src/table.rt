ghost use Rattle.std.specs.Prelude.{◌≡◌, ℕ, ◌^◌, ◌<◌, ◌≤◌, true, length, slice_index};
ghost use Rattle.timetable.specs.Hours.{ever_open};

// The hour from which a lock's opening is counted.
#[derive(Clone, Copy)]
pub struct BaseHour {
    pub(crate) hour: u32,
    ghost most: { hour ≤ 1000000 },
}

// The open hours of the week, a bit for each; some hour is open.
#[derive(Clone, Copy)]
pub struct Timetable {
    pub(crate) bytes: [u8; 21],
    ghost long: { length bytes ≡ 21 },
    ghost fits: { (k : ℕ) → slice_index bytes k < 2 ^ 8 },
    ghost opens: { ever_open bytes ≡ true },
}
