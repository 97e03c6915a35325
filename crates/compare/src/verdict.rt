#[derive(Clone, Copy, PartialEq, Eq, Debug)]
pub enum Verdict {
    SealsDiffer,
    SameSheet,
    // unlike sheets with one seal: the blocks of the two, counted from 0, at which the step collides
    Collision(usize, usize),
    // unlike sheets with one seal, each by its own cipher: the two ciphers are not one
    CiphersDiffer,
}
