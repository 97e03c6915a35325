// One to eight words by value: a cipher's initial value, a chaining value, a digest. An array with a count, since there
// is no heap here, and the kit's vector of fixed room (`arrayvec`) is not `Copy`, which these are.
ghost use Rattle.std.specs.Prelude.{◌≡◌, ◌-◌, ◌≤◌, length, drop, replicate};

#[derive(Clone, Copy, Debug)]
pub struct Block {
    pub(crate) words: [u32; 8],
    pub(crate) count: usize,
    ghost full: { length words ≡ 8 },
    ghost least: { 1 ≤ count },
    ghost most: { count ≤ 8 },
    // what lies behind the words is zero, so that equal words make equal values
    ghost clear: { drop count words ≡ replicate (8 - count) 0 },
}
