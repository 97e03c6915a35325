ghost use Rattle.std.specs.Prelude.{◌≡◌, ℕ, ◌+◌, ◌<◌, ◌≤◌, true, false, replicate, MatchResult};
ghost use Rattle.faults.specs.declared.grounds.TimetableFault.TheVariants.{Base, Closed};
ghost use Rattle.timetable.specs.Hours.{opens_at, ever_open, Next, next};

use crate::table::{BaseHour, Timetable};
use faults::TimetableFault;

const WEEK: u64 = 168;

// Whether an hour is open: its bit, as an hour of the week.
fn opens(bytes: &[u8; 21], hour: u64) -> bool
    ensures { result ≡ opens_at bytes.now hour }
{
    let week_hour = hour % WEEK;
    let byte = bytes[(week_hour / 8) as usize];
    (byte >> (7 - week_hour % 8)) % 2 == 1
}

fn any_open(bytes: &[u8; 21]) -> bool
    ensures { result ≡ ever_open bytes.now }
{
    (0..WEEK).any(|hour| opens(bytes, hour))
}

impl BaseHour {
    // A base hour, or a refusal where it is over 1,000,000. No `TryFrom`, here and for a timetable: it takes no place, and
    // of the two one would then be `try_from` and the other `at`.
    pub fn new(hour: u32) -> Result<BaseHour, TimetableFault>
        ensures { MatchResult result (λ b. (b.hour ≡ hour) × (hour ≤ 1000000)) (λ f. (f ≡ Base 0) × (1000000 < hour)) }
    {
        BaseHour::at(0, hour)
    }

    // The same, of an hour that stands at a byte of a sheet: the refusal tells that place.
    pub fn at(place: usize, hour: u32) -> Result<BaseHour, TimetableFault>
        ensures { MatchResult result (λ b. (b.hour ≡ hour) × (hour ≤ 1000000)) (λ f. (f ≡ Base place) × (1000000 < hour)) }
    {
        if hour > 1_000_000 {
            return Err(TimetableFault::Base(place));
        }
        Ok(BaseHour { hour })
    }

    pub fn hour(self) -> u32
        ensures value { result ≡ self.hour }
        ensures most { result ≤ 1000000 }
    {
        self.hour
    }
}

impl Timetable {
    // A timetable, or a refusal where no hour is open.
    pub fn new(bytes: [u8; 21]) -> Result<Timetable, TimetableFault>
        ensures { MatchResult result (λ t. (t.bytes ≡ bytes) × (ever_open bytes ≡ true)) (λ f. (f ≡ Closed 0) × (ever_open bytes ≡ false)) }
    {
        Timetable::at(0, bytes)
    }

    // The same, of bytes that begin at a byte of a sheet: the refusal tells that place.
    pub fn at(place: usize, bytes: [u8; 21]) -> Result<Timetable, TimetableFault>
        ensures { MatchResult result (λ t. (t.bytes ≡ bytes) × (ever_open bytes ≡ true)) (λ f. (f ≡ Closed place) × (ever_open bytes ≡ false)) }
    {
        if !any_open(&bytes) {
            return Err(TimetableFault::Closed(place));
        }
        Ok(Timetable { bytes })
    }

    // Every hour open.
    pub fn always() -> Timetable
        ensures { result.bytes ≡ replicate 21 255 }
    {
        Timetable { bytes: [0xff; 21] }
    }

    pub fn bytes(&self) -> &[u8; 21]
        ensures { result.now ≡ self.now.bytes }
    {
        &self.bytes
    }

    pub fn is_open(&self, hour: u64) -> bool
        ensures { result ≡ opens_at self.now.bytes hour }
    {
        opens(&self.bytes, hour)
    }

    // How many hours it is from an hour to the next open one; none where the hour itself is open.
    pub fn wait(&self, hour: u64) -> u64
        ensures least { Next self.now.bytes hour (hour + result) }
        ensures only { (h : ℕ) → Next self.now.bytes hour h → h ≡ hour + result }
        ensures value { hour + result ≡ next self.now.bytes hour }
        ensures soon { result ≤ 167 }
    {
        let from = hour % WEEK;
        (0..WEEK - 1)
            .find(|n| opens(&self.bytes, from + n))
            .unwrap_or(WEEK - 1)
    }
}
