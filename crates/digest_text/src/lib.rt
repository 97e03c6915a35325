// The texts of the program `digest`: which argument names which hash, and the line that it prints. Promised: a `Choice`
// is read from exactly three arguments, and `line` is the digest's bytes in lower-case hexadecimal and a line end.
#![tactic(auto)]

ghost use Rattle.std.specs.Prelude.{◌≡◌, [], ◌∷◌, ◌++◌, IfOk, string_bytes};
ghost use Rattle.words.specs.Blocks.{held};
ghost use Rattle.words.specs.Hex.{hex as hex_of};
ghost use Rattle.digest_text.specs.Texts.{text as text_of};

use std::alloc::{AllocError, Global};
use words::{Block, put_words};

mod choices;

pub use choices::{Choice, UnknownChoice};

// Two digits for each byte, and a line end.
fn hex_line(heap: Global, bytes: &[u8]) -> Result<String, AllocError>
    ensures { IfOk result (λ t. string_bytes t ≡ hex_of bytes.now ++ 10 ∷ []) }
{
    let mut line = hex::encode(heap, bytes)?;
    line.push('\n')?;
    Ok(line)
}

// What is printed of a digest.
pub fn line(heap: Global, digest: &Block) -> Result<String, AllocError>
    ensures { IfOk result (λ t. string_bytes t ≡ text_of (held digest.now)) }
{
    let words = digest.eight();
    let n = digest.count();
    // room for the longest digest, of which this one's bytes count. A `Vec` is no plainer: it could want memory too
    let mut bytes = [0u8; 32];
    let _ = put_words(&words[0..n], &mut bytes);
    hex_line(heap, &bytes[0..4 * n])
}
