ghost use Rattle.hash.specs.Messages.{Hashes, Measured};

use crate::message::Message;
use cipher::Cipher;
use faults::MessageFault;
use words::Block;

// The digest of parts, as of the bytes that they join to. Not over a closure that adds, which would serve other callers
// too: a public call that takes one has to require that it may be called.
pub fn digest_of<C: Cipher>(cipher: &C, parts: &[&[u8]]) -> Result<Block, MessageFault>
    ensures hashes { Hashes (C.meaning cipher.now) parts.now result }
    ensures measured { Measured (C.meaning cipher.now) parts.now result }
{
    let mut message = Message::new(cipher);
    for part in parts {
        if let Err(fault) = message.add(part) {
            let _ = message.finish();
            return Err(fault);
        }
    }
    Ok(message.finish())
}
