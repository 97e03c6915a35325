ghost use Rattle.std.specs.Prelude.{◌<◌};

use arrayvec::ArrayVec;

// What the bench prints of a book.
#[derive(Drop)]
pub(crate) struct Findings {
    pub(crate) opening: u32,
    pub(crate) code: u32,
    pub(crate) seal: ArrayVec<u8, 32>,
    ghost figures: { code < 1000000 },
}
