// SHA-1 and SHA-256 by the hash over the two ciphers. Promised: the digest of parts is the one that FIPS 180-4 gives
// for the bytes that they join to (specs/Standards.antt and specs/Sha.antt have it from the standard alone), and the
// hash over each cipher agrees with the standard on every message of bytes.
#![tactic(auto)]

ghost use Rattle.std.specs.Prelude.{◌≡◌};
ghost use Rattle.sha.specs.Answers.{Sums};
ghost use Rattle.sha.specs.Claims.{Sha1OverShacal1, Sha256OverShacal2};
ghost use Rattle.sha.specs.Known.{Known, Stated};
ghost use Rattle.sha.specs.Sha.{sha1 as sha1_of, sha256 as sha256_of};

use faults::MessageFault;
use hash::digest_of;
use shacal1::Shacal1;
use shacal2::Shacal2;
use words::Block;

// Two names of one generic call; tried: a trait with a law, whose proof in specs/ makes edits of the text unreadable.

// SHA-1 of the parts, joined.
#[tactic(auto, using(crate::proofs::Standard1::digest_sha1))]
pub fn sha1(parts: &[&[u8]]) -> Result<Block, MessageFault>
    ensures answer { Sums sha1_of parts.now result }
    ensures agrees { Sha1OverShacal1 }
{
    digest_of(&Shacal1, parts)
}

// SHA-256 of the parts, joined.
#[tactic(auto, using(crate::proofs::Standard256::digest_sha256))]
pub fn sha256(parts: &[&[u8]]) -> Result<Block, MessageFault>
    ensures answer { Sums sha256_of parts.now result }
    ensures agrees { Sha256OverShacal2 }
{
    digest_of(&Shacal2, parts)
}

// How many examples of the standard its definitions are computed on. Their constants come from the roots of the first
// primes, and the schedules and the padding are those that the standard's text describes.
pub fn examples() -> u8
    ensures known { Known }
    ensures stated { Stated }
    ensures value { result ≡ 6 }
{
    6
}
