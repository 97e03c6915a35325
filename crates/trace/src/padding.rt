// The blocks of a padded message, one at a time, from the caller's bytes.
ghost use Rattle.std.specs.Prelude.{◌≡◌, ℕ, ◌*◌, ◌^◌, ◌<◌, ◌≤◌, length, take, drop, slice_index, slice_index_or, MatchResult};
ghost use Rattle.hash.specs.Digests.{padded, block_count};
ghost use Rattle.hash.specs.Messages.{limit};
ghost use Rattle.trace.specs.Walk.{block};

use faults::TraceFault;
use hash::LIMIT;
use std::array::from_fn;
use words::read_words;

// A message within the limit, as it is padded.
#[derive(Clone, Copy)]
pub(crate) struct Padded<'a> {
    message: &'a [u8],
    ghost within: { length message.now ≤ limit },
    ghost bytes: { (k : ℕ) → slice_index_or message.now k 0 < 2 ^ 8 },
}

impl<'a> Padded<'a> {
    // A message over the limit is refused.
    pub(crate) fn new(message: &'a [u8]) -> Result<Padded<'a>, TraceFault>
        ensures { MatchResult result (λ p. p.message.now ≡ message.now) (λ f. (f ≡ TraceFault.Long) × (limit < length message.now)) }
    {
        if message.len() > LIMIT {
            return Err(TraceFault::Long);
        }
        Ok(Padded { message })
    }

    // How many blocks: behind the message come the byte 0x80 and eight bytes of its length.
    #[tactic(auto, using(crate::proofs::Cuts::counted))]
    pub(crate) fn block_count(&self) -> usize
        ensures { result ≡ block_count self.now.message.now }
    {
        (self.message.len() + 72) / 64
    }

    // A byte of the padded message. Its number of bits fits the last four bytes, so that those before them are zero.
    #[tactic(auto, using(crate::proofs::Cuts::counted))]
    fn byte(&self, at: usize) -> u8
        requires { at < 64 * block_count self.now.message.now }
        ensures { result ≡ slice_index (padded self.now.message.now) at }
    {
        let n = self.message.len();
        let end = 64 * self.block_count() - 4;
        if at < n {
            self.message[at]
        } else if at == n {
            0x80
        } else if at < end {
            0
        } else {
            (8 * n as u32).to_be_bytes()[at - end]
        }
    }

    // A block that the message does not fill.
    #[tactic(auto, using(crate::proofs::Cuts::counted))]
    fn tail_block(&self, i: usize) -> [u8; 64]
        requires { i < block_count self.now.message.now }
        ensures { result ≡ take 64 (drop (64 * i) (padded self.now.message.now)) }
    {
        from_fn(|k| self.byte(64 * i + k))
    }

    // The words of block i. A block that the message fills comes straight from it.
    #[tactic(auto, using(crate::proofs::Cuts::counted))]
    pub(crate) fn block(&self, i: usize) -> [u32; 16]
        requires { i < block_count self.now.message.now }
        ensures { result ≡ block self.now.message.now i }
    {
        let mut words = [0; 16];
        let from = 64 * i;
        if from + 64 <= self.message.len() {
            let _ = read_words(&self.message[from..from + 64], &mut words);
        } else {
            let _ = read_words(&self.tail_block(i), &mut words);
        }
        words
    }
}
