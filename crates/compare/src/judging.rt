ghost use Rattle.std.specs.Prelude.{◌≡◌, ◌≤◌, length, MatchBool, ◌≢◌};
ghost use Rattle.words.specs.Words.{bytes as bytes_of};
ghost use Rattle.ledger.specs.Ledgers.{seal as seal_of};
ghost use Rattle.book.specs.Told.{told};
ghost use Rattle.compare.specs.Alike.{NothingLeftBehind, SharedSealCollides};
ghost use Rattle.compare.specs.Verdicts.{Judges, Compares, collision};

use crate::verdict::Verdict;
use book::Book;
use cipher::Cipher;
use faults::TraceFault;
use trace::trace;

// The seals of two books are the same bytes.
fn same_seal<C: Cipher, D: Cipher>(a: &Book<C>, b: &Book<D>) -> bool
    ensures { MatchBool result (bytes_of (seal_of (C.meaning a.now.cipher) (told (C.meaning a.now.cipher) a.now)) ≡ bytes_of (seal_of (D.meaning b.now.cipher) (told (D.meaning b.now.cipher) b.now))) (bytes_of (seal_of (C.meaning a.now.cipher) (told (C.meaning a.now.cipher) a.now)) ≢ bytes_of (seal_of (D.meaning b.now.cipher) (told (D.meaning b.now.cipher) b.now))) }
{
    // there is no heap: room for eight words each, which no digest passes, and how much of it was filled
    let mut one = [0u8; 32];
    let mut two = [0u8; 32];
    let m = a.seal(&mut one).unwrap();
    let n = b.seal(&mut two).unwrap();
    &one[..m] == &two[..n]
}

// Two sheets that share a seal, traced by one cipher.
fn judge<C: Cipher>(cipher: &C, x: &[u8], y: &[u8]) -> Verdict
    requires x_short { length x.now ≤ 357 }
    requires y_short { length y.now ≤ 357 }
    ensures { Judges (C.meaning cipher.now) x.now y.now result }
{
    match trace(cipher, x, y) {
        Ok((i, j)) => Verdict::Collision(i, j),
        Err(TraceFault::Equal) => Verdict::SameSheet,
        Err(TraceFault::Differ) => Verdict::CiphersDiffer,
        // no sheet is near the limit of a message
        Err(TraceFault::Long) => unreachable(),
    }
}

// What the seals of two books say of them.
pub fn compare<C: Cipher, D: Cipher>(a: &Book<C>, b: &Book<D>) -> Verdict
    ensures verdict { Compares (C.meaning a.now.cipher) (D.meaning b.now.cipher) (told (C.meaning a.now.cipher) a.now) (told (D.meaning b.now.cipher) b.now) result }
    ensures same_five { NothingLeftBehind (C.meaning a.now.cipher) (D.meaning b.now.cipher) (told (C.meaning a.now.cipher) a.now) (told (D.meaning b.now.cipher) b.now) }
    ensures shared_seal { SharedSealCollides (C.meaning a.now.cipher) (D.meaning b.now.cipher) (told (C.meaning a.now.cipher) a.now) (told (D.meaning b.now.cipher) b.now) (λ i j. result ≡ collision i j) }
{
    // the same for the longest sheets
    let mut one = [0u8; 357];
    let mut two = [0u8; 357];
    let m = a.sheet(&mut one).unwrap();
    let n = b.sheet(&mut two).unwrap();
    if !same_seal(a, b) {
        return Verdict::SealsDiffer;
    }
    judge(a.cipher(), &one[..m], &two[..n])
}
