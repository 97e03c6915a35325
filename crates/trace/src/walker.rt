// A place in a message, and the chaining value there.
ghost use Rattle.std.specs.Prelude.{◌≡◌, ◌+◌, ◌<◌, ◌≤◌};
ghost use Rattle.hash.specs.Digests.{block_count};
ghost use Rattle.hash.specs.Messages.{value as value_of};
ghost use Rattle.trace.specs.Walk.{before as before_of, block};

use crate::padding::Padded;
use cipher::Cipher;
use hash::Chain;

// Before block `at` the chaining value is that over the blocks in front of it. Cipher and message stay, as each call says,
// for the reason that stands at `hash::Chain`.
#[derive(Drop)]
pub(crate) struct Walker<'a, C: Cipher> {
    pub(crate) chain: Chain<'a, C>,
    message: Padded<'a>,
    at: usize,
    ghost inside: { at ≤ block_count message.message.now },
    ghost before: { value_of (C.meaning chain.cipher.now) chain.places ≡ before_of (C.meaning chain.cipher.now) message.message.now at },
}

impl<'a, C: Cipher> Walker<'a, C> {
    // At the front. It has no loop, which would lose the facts of the struct.
    fn new(cipher: &'a C, message: Padded<'a>) -> Walker<'a, C>
        ensures cipher { result.chain.cipher.now ≡ cipher.now }
        ensures message { result.message.message.now ≡ message.entry.message.now }
        ensures at { result.at ≡ 0 }
    {
        Walker {
            chain: Chain::new(cipher),
            message,
            at: 0,
        }
    }

    // Takes the block at the place, and answers it.
    #[tactic(auto, using(crate::proofs::Cuts::counted))]
    pub(crate) fn step(&mut self) -> [u32; 16]
        requires { self.old.at < block_count self.old.message.message.now }
        ensures cipher { self.new.chain.cipher.now ≡ self.old.chain.cipher.now }
        ensures message { self.new.message.message.now ≡ self.old.message.message.now }
        ensures at { self.new.at ≡ self.old.at + 1 }
        ensures block { result ≡ block self.old.message.message.now self.old.at }
    {
        let block = self.message.block(self.at);
        self.chain.step(&block);
        self.at += 1;
        block
    }

    // Past the first `count` blocks.
    pub(crate) fn past(cipher: &'a C, message: Padded<'a>, count: usize) -> Walker<'a, C>
        requires { count ≤ block_count message.message.now }
        ensures cipher { result.chain.cipher.now ≡ cipher.now }
        ensures message { result.message.message.now ≡ message.entry.message.now }
        ensures at { result.at ≡ count }
    {
        let mut walker = Walker::new(cipher, message);
        for _ in 0..count {
            walker.step();
        }
        walker
    }
}
