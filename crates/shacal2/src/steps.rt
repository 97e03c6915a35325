// The steps: one, one undone, and some in a row.
ghost use Rattle.std.specs.Prelude.{◌≡◌, length};
ghost use Rattle.shacal2.specs.Shacal2.{big0 as bigZero, big1 as bigOne, turn as turned, unturn as unturned};
ghost use Rattle.shacal2.specs.Phases.{row, phase, unphase};

use words::{choose, majority};

// The eight words that the steps work on.
#[derive(Clone, Copy)]
pub(crate) struct State {
    a: u32,
    b: u32,
    c: u32,
    d: u32,
    e: u32,
    f: u32,
    g: u32,
    h: u32,
}

// Not one over const parameters: tried, it needs six bounds on them and a proof, and these two need neither.
fn big0(x: u32) -> u32
    ensures { result ≡ bigZero x }
{
    x.rotate_right(2) ^ x.rotate_right(13) ^ x.rotate_right(22)
}

fn big1(x: u32) -> u32
    ensures { result ≡ bigOne x }
{
    x.rotate_right(6) ^ x.rotate_right(11) ^ x.rotate_right(25)
}

// A constant and a word of the schedule come apart, here and below as two rows: the constants are one table, and the words
// are made as they are wanted.
impl State {
    // One step with the constant k and the word w of the schedule.
    fn turn(self, k: u32, w: u32) -> State
        ensures { row result ≡ turned k w (row self) }
    {
        let sum = big1(self.e)
            .wrapping_add(choose(self.e, self.f, self.g))
            .wrapping_add(k)
            .wrapping_add(w);
        let t = self.h.wrapping_add(sum);
        let front = big0(self.a).wrapping_add(majority(self.a, self.b, self.c));
        State {
            a: front.wrapping_add(t),
            b: self.a,
            c: self.b,
            d: self.c,
            e: self.d.wrapping_add(t),
            f: self.e,
            g: self.f,
            h: self.g,
        }
    }

    // One step undone.
    fn unturn(self, k: u32, w: u32) -> State
        ensures { row result ≡ unturned k w (row self) }
    {
        let front = big0(self.b).wrapping_add(majority(self.b, self.c, self.d));
        let t = self.a.wrapping_sub(front);
        let sum = big1(self.f)
            .wrapping_add(choose(self.f, self.g, self.h))
            .wrapping_add(k)
            .wrapping_add(w);
        State {
            a: self.b,
            b: self.c,
            c: self.d,
            d: self.e.wrapping_sub(t),
            e: self.f,
            f: self.g,
            g: self.h,
            h: t.wrapping_sub(sum),
        }
    }
}

// Steps over the words w, each with the constant beside it, as far as both go.
pub(crate) fn forward(k: &[u32], w: &[u32], block: State) -> State
    ensures { row result ≡ phase k.now w.now (row block) }
{
    k.iter()
        .zip(w.iter())
        .fold(block, |s, (k, w)| s.turn(*k, *w))
}

// The same steps undone, the last first.
pub(crate) fn backward(k: &[u32], w: &[u32], block: State) -> State
    requires { length k.now ≡ length w.now }
    ensures { row result ≡ unphase k.now w.now (row block) }
{
    let back = k.iter().rev().zip(w.iter().rev());
    back.fold(block, |s, (k, w)| s.unturn(*k, *w))
}

impl From<[u32; 8]> for State {
    ghost from_gives = { λ words s. row s ≡ words };

    fn from(words: [u32; 8]) -> State {
        let [a, b, c, d, e, f, g, h] = words;
        State {
            a,
            b,
            c,
            d,
            e,
            f,
            g,
            h,
        }
    }
}

impl From<State> for [u32; 8] {
    ghost from_gives = { λ s words. words ≡ row s };

    fn from(s: State) -> [u32; 8] {
        [s.a, s.b, s.c, s.d, s.e, s.f, s.g, s.h]
    }
}
