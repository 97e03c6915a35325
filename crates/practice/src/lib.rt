// The practice cipher: two words, to which encryption adds the key's first two and from which decryption takes them,
// with the initial value 1, 2. It hides mistakes of sequence, since its steps commute: it is for practice.
#![tactic(auto)]

ghost use Rattle.practice.specs.Practice.{practice};
ghost use Rattle.practice.specs.Laws;

use cipher::Cipher;
use faults::CipherFault;
use words::Block;

// The cipher as a value: it holds nothing.
#[derive(Clone, Copy, Debug)]
pub struct Practice;

impl Cipher for Practice {
    ghost meaning = { λ _. practice };

    ghost lawful = { λ c. Laws.lawful };

    fn width(&self) -> usize {
        2
    }

    fn initial(&self) -> Block {
        Block::of(&[1, 2]).unwrap()
    }

    // Not one form with a closure: its contract would be longer than what these two share.
    fn encrypt(&self, key: &[u32; 16], block: &mut [u32]) -> Result<(), CipherFault> {
        let block = block.as_mut_array::<2>().ok_or(CipherFault::Block)?;
        let [x, y] = *block;
        *block = [x.wrapping_add(key[0]), y.wrapping_add(key[1])];
        Ok(())
    }

    fn decrypt(&self, key: &[u32; 16], block: &mut [u32]) -> Result<(), CipherFault> {
        let block = block.as_mut_array::<2>().ok_or(CipherFault::Block)?;
        let [x, y] = *block;
        *block = [x.wrapping_sub(key[0]), y.wrapping_sub(key[1])];
        Ok(())
    }
}
