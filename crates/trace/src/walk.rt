// Both messages forward, the longer ahead, and the last place where their pairs differ.
ghost use Rattle.std.specs.Prelude.{◌≡◌, ◌+◌, ◌≢◌};
ghost use Rattle.hash.specs.Digests.{block_count, digest};
ghost use Rattle.hash.specs.Messages.{value as value_of};
ghost use Rattle.trace.specs.Walk.{Last, Traces};

use crate::padding::Padded;
use crate::walker::Walker;
use cipher::Cipher;
use faults::TraceFault;

// Takes `count` blocks of both, which are as far from their ends. How many places on the pair differs for the last
// time, if it ever does.
fn in_step<C: Cipher>(x: &mut Walker<C>, y: &mut Walker<C>, count: usize) -> Option<usize>
    requires cipher { x.old.chain.cipher.now ≡ y.old.chain.cipher.now }
    requires x_left { x.old.at + count ≡ block_count x.old.message.message.now }
    requires y_left { y.old.at + count ≡ block_count y.old.message.message.now }
    ensures x_digest { value_of (C.meaning x.new.chain.cipher.now) x.new.chain.places ≡ digest (C.meaning x.old.chain.cipher.now) x.old.message.message.now }
    ensures y_digest { value_of (C.meaning y.new.chain.cipher.now) y.new.chain.places ≡ digest (C.meaning y.old.chain.cipher.now) y.old.message.message.now }
    ensures last { Last (C.meaning x.old.chain.cipher.now) x.old.message.message.now y.old.message.message.now x.old.at y.old.at count result }
{
    let mut last = None;
    // no `filter` and `last`: each turn moves both walkers, which a closure's contract would have to tell
    for k in 0..count {
        let values = x.chain.words() == y.chain.words();
        let blocks = x.step() == y.step();
        if !(values && blocks) {
            last = Some(k);
        }
    }
    last
}

// Where unlike messages collide, or that their digests differ.
pub(crate) fn walk<C: Cipher>(
    cipher: &C,
    x: Padded,
    y: Padded,
) -> Result<(usize, usize), TraceFault>
    requires { x.message.now ≢ y.message.now }
    ensures { Traces (C.meaning cipher.now) x.entry.message.now y.entry.message.now result }
{
    let (m, n) = (x.block_count(), y.block_count());
    let i = m.saturating_sub(n);
    let j = n.saturating_sub(m);
    let mut one = Walker::past(cipher, x, i);
    let mut other = Walker::past(cipher, y, j);
    let last = in_step(&mut one, &mut other, m - i);
    if one.chain.words() != other.chain.words() {
        return Err(TraceFault::Differ);
    }
    // unlike messages differ in length, which their last blocks hold, or in a block
    let k = last.unwrap();
    Ok((i + k, j + k))
}
