ghost use Rattle.std.specs.Prelude.{◌≡◌, ◌+◌, ◌<◌, ◌≤◌, [], ◌++◌, length, decimal, MatchResult};
ghost use Rattle.faults.specs.declared.grounds.BufferFault.TheVariants as BufferFault;
ghost use Rattle.bench_io.specs.Lines.{refusal_line, opening_line};

use arrayvec::ArrayVec;
use faults::{BufferFault, Refusal};
use itoa::Buffer;
use std::marker::Model;

// What a bench prints: a line or a few, of at most 128 bytes together.
// Parts are pushed, not written by `write!`: tried, and the proof did not close, as its contract says nothing of an `Err`.
#[derive(Drop)]
pub struct Line {
    text: ArrayVec<u8, 128>,
}

impl Model for Line {
    ghost use Rattle.std.specs.Prelude.{List, ℕ, ◌≤◌, length};

    ghost Value = { List ℕ };

    ghost view = { λ a. a.text.items };

    ghost invariant = { λ a. length a.text.items ≤ 128 };
}

impl Line {
    pub fn new() -> Line
        ensures { result ≡ [] }
    {
        Line {
            text: ArrayVec::new(),
        }
    }

    pub fn bytes(&self) -> &[u8]
        ensures value { result.now ≡ self.now }
        ensures most { length result.now ≤ 128 }
    {
        self.text.as_slice()
    }

    // Puts a part behind what is there. One that does not fit is refused, and the line stays as it was.
    pub fn push(&mut self, part: &[u8]) -> Result<(), BufferFault>
        ensures { MatchResult result (λ u. (length self.old + length part.now ≤ 128) × (self.new ≡ self.old ++ part.now)) (λ f. (f ≡ BufferFault.Short) × (128 < length self.old + length part.now) × (self.new ≡ self.old)) }
    {
        if self.text.remaining_capacity() < part.len() {
            return Err(BufferFault::Short);
        }
        self.put(part);
        Ok(())
    }

    // The same of a part that fits. That it does is asked, here and of the parts below and of both benches: how much
    // room is left no type tells.
    fn put(&mut self, part: &[u8])
        requires { length self.old + length part.now ≤ 128 }
        ensures { self.new ≡ self.old ++ part.now }
    {
        self.text.try_extend_from_slice(part).unwrap();
    }

    // The same of a number's decimal digits, of which there are at most 20.
    fn put_decimal(&mut self, n: u64)
        requires { length self.old ≤ 108 }
        ensures after { self.new ≡ self.old ++ decimal n }
        ensures most { length self.new ≤ length self.old + 20 }
    {
        let mut digits = Buffer::new();
        self.put(digits.format(n).as_bytes());
    }

    // The line of an opening hour.
    #[tactic(auto, unfolding(crate::specs::Lines::opening_line))]
    pub fn opening(hour: u32) -> Line
        ensures line { result ≡ opening_line hour }
        ensures most { length result ≤ 29 }
    {
        let mut line = Line::new();
        line.put(b"opening ");
        line.put_decimal(u64::from(hour));
        line.put(b"\n");
        line
    }
}

impl From<Refusal> for Line {
    ghost from_gives = { λ r line. line ≡ refusal_line r };

    #[tactic(auto, unfolding(crate::specs::Lines::refusal_line))]
    fn from(refusal: Refusal) -> Line {
        let mut line = Line::new();
        line.put(b"refused ");
        line.put_decimal(u64::from(refusal.number));
        line.put(b" ");
        line.put(refusal.layer.name());
        line.put(b" ");
        line.put_decimal(refusal.place as u64);
        line.put(b"\n");
        line
    }
}
