ghost use Rattle.std.specs.Prelude.{◌≡◌, ◌<◌, ◌≤◌, length};
ghost use Rattle.words.specs.Words.{bytes as bytes_of};
ghost use Rattle.words.specs.Buffer.{Fills};
ghost use Rattle.ledger.specs.Ledgers.{Sound, opening, register, code, sheet, seal};
ghost use Rattle.book.specs.Told.{told};

use crate::showing::digest;
use crate::state::Book;
use cipher::Cipher;
use faults::BufferFault;
use sheet::write;
use words::put_words;

impl<C: Cipher> Book<C> {
    // The cipher by which the book turns its register and seals.
    pub fn cipher(&self) -> &C
        ensures { result.now ≡ self.now.cipher }
    {
        &self.cipher
    }

    // The hour at which the lock opens.
    pub fn opening(&self) -> u32
        ensures value { result ≡ opening (told (C.meaning self.now.cipher) self.now) }
        ensures bound { result ≤ 1056935 }
    {
        self.table.in_force().opening(&self.timetable, self.base)
    }

    // Writes the register to the front of a buffer, and answers how many bytes it is.
    pub fn register(&self, out: &mut [u8]) -> Result<usize, BufferFault>
        ensures fills { Fills (bytes_of (register (C.meaning self.now.cipher) (told (C.meaning self.now.cipher) self.now))) out.old out.new result }
        ensures wide { length (register (C.meaning self.now.cipher) (told (C.meaning self.now.cipher) self.now)) ≡ (C.meaning self.now.cipher).width }
    {
        let width = self.cipher.width();
        put_words(&self.register[..width], out)
    }

    // The code, a number of at most six figures.
    pub fn code(&self) -> u32
        ensures value { result ≡ code (C.meaning self.now.cipher) (told (C.meaning self.now.cipher) self.now) }
        ensures bound { result < 1000000 }
    {
        // there is no heap: room for eight words, which no cipher passes, and how much of it was filled
        let mut bytes = [0u8; 32];
        let n = self.register(&mut bytes).unwrap();
        digest(&self.cipher, &bytes[..n]).eight()[0] % 1_000_000
    }

    // Writes the sheet of the orders in force to the front of a buffer, and answers its length. What the sheet of every
    // book is made of is said here.
    pub fn sheet(&self, out: &mut [u8]) -> Result<usize, BufferFault>
        ensures fills { Fills (sheet (told (C.meaning self.now.cipher) self.now)) out.old out.new result }
        ensures sound { Sound (C.meaning self.now.cipher) (told (C.meaning self.now.cipher) self.now) }
    {
        write(
            &self.name,
            self.base,
            &self.timetable,
            &self.table.in_force(),
            out,
        )
    }

    // Writes the seal to the front of a buffer, and answers how many bytes it is.
    pub fn seal(&self, out: &mut [u8]) -> Result<usize, BufferFault>
        ensures fills { Fills (bytes_of (seal (C.meaning self.now.cipher) (told (C.meaning self.now.cipher) self.now))) out.old out.new result }
        ensures wide { length (seal (C.meaning self.now.cipher) (told (C.meaning self.now.cipher) self.now)) ≡ (C.meaning self.now.cipher).width }
    {
        // the same for the longest sheet
        let mut sheet = [0u8; 357];
        let n = self.sheet(&mut sheet).unwrap();
        let seal = digest(&self.cipher, &sheet[..n]);
        put_words(&seal.eight()[..seal.count()], out)
    }
}
