ghost use Rattle.std.specs.Prelude.{◌≡◌, ℕ, ◌+◌, ◌≤◌, ◌^◌, List, [], ◌++◌, length, MatchResult};
ghost use Rattle.words.specs.Blocks.{held};
ghost use Rattle.words.specs.Words.{Below};
ghost use Rattle.hash.specs.Digests.{digest};
ghost use Rattle.hash.specs.Messages.{Open, Granted, limit};

use crate::chaining::Chain;
use cipher::Cipher;
use faults::MessageFault;
use words::Block;

// How many bytes a message takes.
pub const LIMIT: usize = 16_777_216;

// A message that bytes are added to. It is not `Drop`: what was begun is finished. No `impl Model` as these bytes: it does
// not keep them, and stands for them by a relation.
pub struct Message<'a, C> {
    pub(crate) chain: Chain<'a, C>,
    pub(crate) tail: [u8; 64],
    // of all bytes, and not of the tail's, so that no slice holds both
    pub(crate) count: usize,
    ghost within: { count ≤ limit },
}

impl<'a, C: Cipher> Message<'a, C> {
    // A message of no bytes.
    pub fn new(cipher: &'a C) -> Message<'a, C>
        ensures same { result.chain.cipher.now ≡ cipher.now }
        ensures begun { Open (C.meaning cipher.now) result.count result.tail result.chain.places [] }
    {
        Message {
            chain: Chain::new(cipher),
            tail: [0; 64],
            count: 0,
        }
    }

    // Adds bytes, or refuses where they would pass the limit; the message then goes on as it was.
    pub fn add(&mut self, data: &[u8]) -> Result<(), MessageFault>
        ensures granted { Granted self.old.count «data».now result }
        ensures same { self.new.chain.cipher.now ≡ self.old.chain.cipher.now }
        ensures counts { MatchResult result (λ u. self.new.count ≡ self.old.count + length «data».now) (λ f. self.new ≡ self.old) }
        ensures bytes { Below (2 ^ 8) «data».now }
        ensures stands { MatchResult result (λ u. (bs : List ℕ) → Open (C.meaning self.old.chain.cipher.now) self.old.count self.old.tail self.old.chain.places bs → Open (C.meaning self.old.chain.cipher.now) self.new.count self.new.tail self.new.chain.places (bs ++ «data».now)) (λ f. self.new ≡ self.old) }
    {
        if data.len() > LIMIT - self.count {
            return Err(MessageFault::Limit);
        }
        self.grow(data);
        self.count += data.len();
        Ok(())
    }

    // The digest of all bytes that were added. The message is used up.
    pub fn finish(mut self) -> Block
        ensures { (bs : List ℕ) → Open (C.meaning self.entry.chain.cipher.now) self.entry.count self.entry.tail self.entry.chain.places bs → held result ≡ digest (C.meaning self.entry.chain.cipher.now) bs }
    {
        self.close();
        let Message {
            chain,
            tail: _,
            count: _,
        } = self;
        // a cipher has one to eight words
        Block::of(chain.words()).unwrap()
    }
}
