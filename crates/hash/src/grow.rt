ghost use Rattle.std.specs.Prelude.{◌≡◌, ℕ, ◌+◌, List, ◌++◌, length};
ghost use Rattle.hash.specs.Messages.{Open};

use crate::message::Message;
use cipher::Cipher;

impl<'a, C: Cipher> Message<'a, C> {
    // Bytes behind those of the tail: they fill it, whole blocks come straight from them, and the rest is the new tail.
    pub(crate) fn grow(&mut self, data: &[u8])
        ensures cipher { self.new.chain.cipher.now ≡ self.old.chain.cipher.now }
        ensures count { self.new.count ≡ self.old.count }
        ensures stands { (bs : List ℕ) → Open (C.meaning self.old.chain.cipher.now) self.old.count self.old.tail self.old.chain.places bs → Open (C.meaning self.old.chain.cipher.now) (self.old.count + length «data».now) self.new.tail self.new.chain.places (bs ++ «data».now) }
    {
        let used = self.count % 64;
        let room = 64 - used;
        if data.len() < room {
            self.tail[used..used + data.len()].copy_from_slice(data);
            return;
        }
        let (front, rest) = data.split_at(room);
        self.tail[used..64].copy_from_slice(front);
        self.chain.absorb(&self.tail);
        let (blocks, last) = rest.as_chunks::<64>();
        self.chain.absorb_all(blocks);
        self.tail[0..last.len()].copy_from_slice(last);
    }
}
