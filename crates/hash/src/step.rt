ghost use Rattle.std.specs.Prelude.{◌≡◌, length};
ghost use Rattle.cipher.specs.Turned.{told, turned};
ghost use Rattle.hash.specs.Digests.{forward as forward_of};

use cipher::Cipher;
use faults::CipherFault;
use words::{Block, add_words};

// The feed-forward step: the chaining value is encrypted under a block, and added to what it was. One of another size
// is refused and stays as it was.
pub fn forward<C: Cipher>(
    cipher: &C,
    chain: &mut [u32],
    block: &[u32; 16],
) -> Result<(), CipherFault>
    ensures answer { result ≡ told (C.meaning cipher.now).width chain.old }
    ensures chain { chain.new ≡ turned (C.meaning cipher.now).width (λ h. forward_of (C.meaning cipher.now) h block.now) chain.old }
    ensures stepped { length chain.old ≡ (C.meaning cipher.now).width → chain.new ≡ forward_of (C.meaning cipher.now) chain.old block.now }
{
    // the compiler knows the cipher's word count, and not the length of the slice
    let n = cipher.width();
    if chain.len() != n {
        return Err(CipherFault::Block);
    }
    // a cipher has one to eight words
    let before = Block::of(&chain[0..n]).unwrap().eight();
    cipher.encrypt(block, chain)?;
    add_words(chain, &before[0..n])
}
