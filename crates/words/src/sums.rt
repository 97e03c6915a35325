// Rows of words added.
ghost use Rattle.std.specs.Prelude.{◌≡◌, length, if◌then◌else◌, nat_eq, Ok, Err};
ghost use Rattle.faults.specs.declared.grounds.CipherFault.TheVariants as CipherFault;
ghost use Rattle.words.specs.Steps.{added};

use faults::CipherFault;

// Adds as many words, one by one. A row of another length is refused, and the words stay as they were.
pub fn add_words(onto: &mut [u32], more: &[u32]) -> Result<(), CipherFault>
    ensures answer { result ≡ (if nat_eq (length onto.old) (length more.now) then Ok tt else Err CipherFault.Block) }
    ensures onto { onto.new ≡ (if nat_eq (length onto.old) (length more.now) then added onto.old more.now else onto.old) }
{
    if onto.len() != more.len() {
        return Err(CipherFault::Block);
    }
    // by number: of what `zip` writes to a row lent as `&mut` the library tells nothing
    for (i, word) in onto.iter_mut().enumerate() {
        *word = word.wrapping_add(more[i]);
    }
    Ok(())
}
