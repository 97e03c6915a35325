ghost use Rattle.std.specs.Prelude.{◌≡◌, ℕ, ◌-◌, ◌<◌, List, ◌++◌, take};
ghost use Rattle.hash.specs.Digests.{digest, field, mark};
ghost use Rattle.hash.specs.Messages.{Open, value as value_of};

use crate::message::Message;
use cipher::Cipher;

// The most bytes of a block that leave room for the mark and the eight bytes of the length.
const ROOM: usize = 55;

// The byte 0x80 behind the first `used` bytes, and zeros behind it.
fn put_mark(tail: &mut [u8; 64], used: usize)
    requires { used < 64 }
    ensures { tail.new ≡ take used tail.old ++ mark (63 - used) }
{
    tail[used] = 0x80;
    tail[used + 1..64].fill(0);
}

// The number of bits of `count` bytes into the last eight.
fn put_length(tail: &mut [u8; 64], count: usize)
    ensures { tail.new ≡ take 56 tail.old ++ field count }
{
    let bits = (count as u64).wrapping_mul(8);
    tail[56..64].copy_from_slice(&bits.to_be_bytes());
}

impl<'a, C: Cipher> Message<'a, C> {
    // The one or two last blocks.
    pub(crate) fn close(&mut self)
        ensures cipher { self.new.chain.cipher.now ≡ self.old.chain.cipher.now }
        ensures closed { (bs : List ℕ) → Open (C.meaning self.old.chain.cipher.now) self.old.count self.old.tail self.old.chain.places bs → value_of (C.meaning self.old.chain.cipher.now) self.new.chain.places ≡ digest (C.meaning self.old.chain.cipher.now) bs }
    {
        let count = self.count;
        let used = count % 64;
        put_mark(&mut self.tail, used);
        if used > ROOM {
            self.chain.absorb(&self.tail);
            self.tail.fill(0);
        }
        put_length(&mut self.tail, count);
        self.chain.absorb(&self.tail);
    }
}
