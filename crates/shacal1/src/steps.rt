// The steps: one, one undone, and those of a phase, in which the function and the constant stay.
ghost use Rattle.std.specs.Prelude.{◌≡◌, ℕ};
ghost use Rattle.words.specs.Steps.{Mix, choose as chosen, parity as parityOf, majority as majorityOf};
ghost use Rattle.shacal1.specs.Shacal1.{turn as turned, unturn as unturned};
ghost use Rattle.shacal1.specs.Phases.{row, phase, unphase};

use words::{choose, majority};

// A phase of twenty steps: its function of three words and its constant.
pub(crate) trait Phase {
    const K: u32;

    ghost K: { ℕ };

    ghost mixes: { Mix };

    fn mix(b: u32, c: u32, d: u32) -> u32
        ensures { result ≡ mixes b c d };
}

// The first phase.
pub(crate) struct First;

// The second phase and the fourth, which differ in the constant alone.
pub(crate) struct Parity<const C: u32>;

pub(crate) type Second = Parity<0x6ED9_EBA1>;

// The third phase.
pub(crate) struct Third;

pub(crate) type Fourth = Parity<0xCA62_C1D6>;

impl Phase for First {
    const K: u32 = 0x5A82_7999;

    ghost K = { 0x5A82_7999 };

    ghost mixes = { chosen };

    fn mix(b: u32, c: u32, d: u32) -> u32 {
        choose(b, c, d)
    }
}

impl<const C: u32> Phase for Parity<C> {
    const K: u32 = C;

    ghost K = { C };

    ghost mixes = { parityOf };

    fn mix(b: u32, c: u32, d: u32) -> u32 {
        b ^ c ^ d
    }
}

impl Phase for Third {
    const K: u32 = 0x8F1B_BCDC;

    ghost K = { 0x8F1B_BCDC };

    ghost mixes = { majorityOf };

    fn mix(b: u32, c: u32, d: u32) -> u32 {
        majority(b, c, d)
    }
}

// The five words that the steps work on.
#[derive(Clone, Copy)]
pub(crate) struct State {
    a: u32,
    b: u32,
    c: u32,
    d: u32,
    e: u32,
}

impl State {
    // One step of the phase, with the word w of the schedule.
    fn turn<P: Phase>(self, w: u32) -> State
        ensures { row result ≡ turned P.mixes P.K w (row self) }
    {
        // before the sum, since the compiler orders the sum otherwise
        let f = P::mix(self.b, self.c, self.d);
        let sum = w
            .wrapping_add(self.a.rotate_left(5))
            .wrapping_add(f)
            .wrapping_add(P::K);
        State {
            a: sum.wrapping_add(self.e),
            b: self.a,
            c: self.b.rotate_left(30),
            d: self.c,
            e: self.d,
        }
    }

    // One step undone.
    fn unturn<P: Phase>(self, w: u32) -> State
        ensures { row result ≡ unturned P.mixes P.K w (row self) }
    {
        let b = self.c.rotate_left(2);
        let f = P::mix(b, self.d, self.e);
        let sum = w
            .wrapping_add(self.b.rotate_left(5))
            .wrapping_add(f)
            .wrapping_add(P::K);
        State {
            a: self.b,
            b,
            c: self.d,
            d: self.e,
            e: self.a.wrapping_sub(sum),
        }
    }
}

// Steps of a phase over the words w.
pub(crate) fn forward<P: Phase>(w: &[u32], block: State) -> State
    ensures { row result ≡ phase P.mixes P.K w.now (row block) }
{
    w.iter().fold(block, |s, x| s.turn::<P>(*x))
}

// The same steps undone, the last first.
pub(crate) fn backward<P: Phase>(w: &[u32], block: State) -> State
    ensures { row result ≡ unphase P.mixes P.K w.now (row block) }
{
    w.iter().rev().fold(block, |s, x| s.unturn::<P>(*x))
}

impl From<[u32; 5]> for State {
    ghost from_gives = { λ words s. row s ≡ words };

    fn from(words: [u32; 5]) -> State {
        let [a, b, c, d, e] = words;
        State { a, b, c, d, e }
    }
}

impl From<State> for [u32; 5] {
    ghost from_gives = { λ s words. words ≡ row s };

    fn from(s: State) -> [u32; 5] {
        [s.a, s.b, s.c, s.d, s.e]
    }
}
