// Blocks made and read.
ghost use Rattle.std.specs.Prelude.{◌≡◌, ◌-◌, ◌<◌, ◌≤◌, ◌++◌, length, replicate, MatchOption};
ghost use Rattle.words.specs.Blocks.{held};

use crate::block::Block;
use crate::padding::padded;

impl Block {
    // The block of these words, or none where they are not one to eight. No `TryFrom`: it would need an error that no
    // refusal tells.
    pub fn of(words: &[u32]) -> Option<Block>
        ensures { MatchOption result ((1 ≤ length words.now → 8 < length words.now)) (λ b. held b ≡ words.now) }
    {
        if words.is_empty() {
            return None;
        }
        Some(Block {
            words: padded(words, 0)?,
            count: words.len(),
        })
    }

    // How many words it holds: 1 to 8.
    pub fn count(&self) -> usize
        ensures { (result ≡ length (held self.now)) × ((1 ≤ result) × (result ≤ 8)) }
    {
        self.count
    }

    // Its words, and zeros behind them up to eight.
    pub fn eight(&self) -> [u32; 8]
        ensures { result ≡ held self.now ++ replicate (8 - length (held self.now)) 0 }
    {
        self.words
    }
}
