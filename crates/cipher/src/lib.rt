// Block ciphers by meaning and laws. A cipher is whatever has a meaning: a number of words from 1 to 8, an initial
// value, and encryption and decryption that undo one another under every key of sixteen words. What is proved of
// every `Cipher` holds of each end behind it.
#![tactic(auto)]

ghost use Rattle.std.specs.Prelude.{◌≡◌};
ghost use Rattle.cipher.specs.Meaning.{Meaning, Lawful};
ghost use Rattle.cipher.specs.Turned.{told, turned};
ghost use Rattle.words.specs.Blocks.{held};

use faults::CipherFault;
use words::Block;

mod bytes;
mod direction;

pub use bytes::{decrypt_bytes, encrypt_bytes};
pub use direction::{Decrypt, Direction, Encrypt};

// A key and a block come apart in every call: a key stays while blocks change, and both are their callers' own.
pub trait Cipher {
    ghost meaning: { Self → Meaning };

    // How many words a block has.
    fn width(&self) -> usize
        ensures { result ≡ (meaning self.now).width };

    // The value that a hash over the cipher begins with.
    fn initial(&self) -> Block
        ensures { held result ≡ (meaning self.now).initial };

    // Encrypts the block in place. One of another size is refused and stays as it was.
    fn encrypt(&self, key: &[u32; 16], block: &mut [u32]) -> Result<(), CipherFault>
        ensures answer { result ≡ told (meaning self.now).width block.old }
        ensures block { block.new ≡ turned (meaning self.now).width ((meaning self.now).enc key.now) block.old };

    // Decrypts the block in place. One of another size is refused and stays as it was.
    fn decrypt(&self, key: &[u32; 16], block: &mut [u32]) -> Result<(), CipherFault>
        ensures answer { result ≡ told (meaning self.now).width block.old }
        ensures block { block.new ≡ turned (meaning self.now).width ((meaning self.now).dec key.now) block.old };

    ghost lawful: { (c : Self) → Lawful (meaning c) };
}
