// Whole messages hashed for C to call, so that they can be timed beside C. Promised: the digest is the standard's, and
// an answer of false, for a message over the limit, leaves it as it was. C wants a name for each, and true or false.
#![tactic(auto)]

ghost use Rattle.std.specs.Prelude.{◌≡◌, ◌≤◌, true, false, take, MatchResult};
ghost use Rattle.sha.specs.Sha.{sha1 as sha1_of, sha256 as sha256_of};
ghost use Rattle.perf_hash.specs.Exports.{Leaves};

use faults::MessageFault;
use sha::{sha1, sha256};
use words::Block;

// Hands out the first N words of a digest, or answers false where there is none.
fn handed_out<const N: usize>(hashed: Result<Block, MessageFault>, digest: &mut [u32; N]) -> bool
    requires { N ≤ 8 }
    ensures { MatchResult hashed (λ block. (result ≡ true) × (digest.new ≡ take N block.words)) (λ f. (result ≡ false) × (digest.new ≡ digest.old)) }
{
    let Ok(block) = hashed else {
        return false;
    };
    digest.copy_from_slice(&block.eight()[0..N]);
    true
}

#[unsafe(no_mangle)]
pub extern "C" fn rattle_sha1(message: &[u8], digest: &mut [u32; 5]) -> bool
    ensures { Leaves sha1_of message.now digest.old digest.new result }
{
    handed_out(sha1(&[message]), digest)
}

#[unsafe(no_mangle)]
pub extern "C" fn rattle_sha256(message: &[u8], digest: &mut [u32; 8]) -> bool
    ensures { Leaves sha256_of message.now digest.old digest.new result }
{
    handed_out(sha256(&[message]), digest)
}
