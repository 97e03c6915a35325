// A chaining value, and blocks hashed onto it.
ghost use Rattle.std.specs.Prelude.{◌≡◌, length, map};
ghost use Rattle.words.specs.Words.{words as words_of};
ghost use Rattle.hash.specs.Digests.{chain as chain_of, forward as forward_of};
ghost use Rattle.hash.specs.Messages.{value as value_of};

use crate::step::forward;
use cipher::Cipher;
use words::read_words;

// A chaining value of a cipher. There is no heap: eight places, of which as many count as the cipher has words. That the
// cipher stays is said by each call, here and of a message: no type says that a reference in a `&mut` is not set to
// another. So there is no `impl Model` as the words either, which would hide the cipher.
#[derive(Drop)]
pub struct Chain<'a, C> {
    cipher: &'a C,
    places: [u32; 8],
}

impl<'a, C: Cipher> Chain<'a, C> {
    // The cipher's initial value.
    pub fn new(cipher: &'a C) -> Chain<'a, C>
        ensures same { result.cipher.now ≡ cipher.now }
        ensures begun { value_of (C.meaning cipher.now) result.places ≡ (C.meaning cipher.now).initial }
    {
        let places = cipher.initial().eight();
        Chain { cipher, places }
    }

    // The words.
    pub fn words(&self) -> &[u32]
        ensures are { result.now ≡ value_of (C.meaning self.now.cipher.now) self.now.places }
        ensures long { length result.now ≡ (C.meaning self.now.cipher.now).width }
    {
        &self.places[0..self.cipher.width()]
    }

    // The feed-forward step under a block.
    pub fn step(&mut self, block: &[u32; 16])
        ensures same { self.new.cipher.now ≡ self.old.cipher.now }
        ensures stepped { value_of (C.meaning self.old.cipher.now) self.new.places ≡ forward_of (C.meaning self.old.cipher.now) (value_of (C.meaning self.old.cipher.now) self.old.places) block.now }
    {
        let n = self.cipher.width();
        // the value has the cipher's width, so that no step is refused
        let _ = forward(self.cipher, &mut self.places[0..n], block);
    }

    // The same under a block of bytes.
    pub(crate) fn absorb(&mut self, block: &[u8; 64])
        ensures same { self.new.cipher.now ≡ self.old.cipher.now }
        ensures stepped { value_of (C.meaning self.old.cipher.now) self.new.places ≡ forward_of (C.meaning self.old.cipher.now) (value_of (C.meaning self.old.cipher.now) self.old.places) (words_of block.now) }
    {
        let mut words = [0; 16];
        let _ = read_words(block, &mut words);
        self.step(&words);
    }

    // The same under blocks of bytes, one after the other.
    pub(crate) fn absorb_all(&mut self, blocks: &[[u8; 64]])
        ensures same { self.new.cipher.now ≡ self.old.cipher.now }
        ensures stepped { value_of (C.meaning self.old.cipher.now) self.new.places ≡ chain_of (C.meaning self.old.cipher.now) (value_of (C.meaning self.old.cipher.now) self.old.places) (map words_of blocks.now) }
    {
        for block in blocks {
            self.absorb(block);
        }
    }
}
