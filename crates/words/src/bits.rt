// What steps of ciphers do to three words bit by bit.
ghost use Rattle.std.specs.Prelude.{◌≡◌};
ghost use Rattle.words.specs.Steps.{choose as chosen, majority as voted};

// Where b has a one the bit of c, and elsewhere that of d.
pub fn choose(b: u32, c: u32, d: u32) -> u32
    ensures { result ≡ chosen b c d }
{
    d ^ (b & (c ^ d))
}

// The bit that at least two of the three have. Written so that a step can take over `b ^ c` from the step before.
pub fn majority(b: u32, c: u32, d: u32) -> u32
    ensures { result ≡ voted b c d }
{
    c ^ ((b ^ c) & (c ^ d))
}
