ghost use Rattle.std.specs.Prelude.{◌≡◌, ◌≤◌, length};
ghost use Rattle.words.specs.Blocks.{held};
ghost use Rattle.hash.specs.Digests.{digest as digest_of};

use cipher::Cipher;
use hash::digest_of;
use words::Block;

// The digest of no more bytes than a sheet has.
pub(crate) fn digest<C: Cipher>(cipher: &C, bytes: &[u8]) -> Block
    requires { length bytes.now ≤ 357 }
    ensures value { held result ≡ digest_of (C.meaning cipher.now) bytes.now }
    ensures wide { length (held result) ≡ (C.meaning cipher.now).width }
{
    // far from the limit of a message
    digest_of(cipher, &[bytes]).unwrap()
}
