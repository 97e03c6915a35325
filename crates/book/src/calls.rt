ghost use Rattle.std.specs.Prelude.{◌≡◌, ◌≤◌, length, take, drop};
ghost use Rattle.ledger.specs.Ledgers.{blank};
ghost use Rattle.ledger.specs.Calls.{set_up, enter, undo, relieve};
ghost use Rattle.book.specs.Told.{told, set, entered, undone, Does, Relieves};

use crate::state::Book;
use cipher::Cipher;
use faults::{BookFault, CipherFault};
use order::Order;
use order_table::Table;
use timetable::{BaseHour, Timetable};
use turning::{turn_back, turn_on};

// Puts words at the front of a register.
fn put_front(words: &[u32], register: &mut [u32; 8])
    requires { length words.now ≤ 8 }
    ensures front { take (length words.now) register.new ≡ words.now }
    ensures rest { drop (length words.now) register.new ≡ drop (length words.now) register.old }
{
    register[..words.len()].copy_from_slice(words);
}

impl<C: Cipher> Book<C> {
    // A book that nobody has set up.
    pub fn new(cipher: C) -> Book<C>
        ensures same { result.cipher ≡ cipher }
        ensures blank { told (C.meaning cipher) result ≡ blank (C.meaning cipher) }
    {
        let base = BaseHour::new(0).unwrap();
        Book {
            cipher,
            name: [0; 8],
            base,
            timetable: Timetable::always(),
            register: [0; 8],
            table: Table::new(),
        }
    }

    // Sets the book up, as long as it has no line. The four come apart, as they are handed over: each is kept by itself,
    // and three are checked, so that a struct of them would be taken apart at once.
    pub fn set_up(
        &mut self,
        name: [u8; 8],
        base: u32,
        timetable: [u8; 21],
        start: &[u32],
    ) -> Result<(), BookFault>
        ensures { Does C.meaning (set_up (record { name = name; base = base; table = timetable; start = start.now })) self.old self.new (set result) }
    {
        if start.len() != self.cipher.width() {
            return Err(CipherFault::Block.into());
        }
        let base_hour = BaseHour::new(base)?;
        let week = Timetable::new(timetable)?;
        if self.table.lines().len() > 0 {
            return Err(BookFault::Begun);
        }
        self.name = name;
        self.base = base_hour;
        self.timetable = week;
        put_front(start, &mut self.register);
        Ok(())
    }

    // Enters an order, and answers its number and the new opening hour. Letter and amount come as in `Order::new`.
    pub fn enter(&mut self, letter: char, amount: u32) -> Result<(usize, u32), BookFault>
        ensures { Does C.meaning (enter letter amount) self.old self.new (entered result) }
    {
        let order = Order::new(letter, amount)?;
        let number = self.table.enter(order)?;
        turn_on(&self.cipher, &self.name, &[order], &mut self.register);
        Ok((number, self.opening()))
    }

    // Undoes the order of a number, counted from 1, and answers the opening hour. The register is turned back by the
    // orders in force behind it, the newest first, then by the order itself, and on again by those behind it.
    pub fn undo(&mut self, number: usize) -> Result<u32, BookFault>
        ensures { Does C.meaning (undo number) self.old self.new (undone result) }
    {
        let (order, later) = self.table.undo(number)?;
        turn_back(
            &self.cipher,
            &self.name,
            later.as_slice(),
            &mut self.register,
        );
        turn_back(&self.cipher, &self.name, &[order], &mut self.register);
        turn_on(
            &self.cipher,
            &self.name,
            later.as_slice(),
            &mut self.register,
        );
        Ok(self.opening())
    }

    // Undoes the longest delay in force, of equals the one with the highest number, and answers its number and the
    // opening hour.
    pub fn relieve(&mut self) -> Result<(usize, u32), BookFault>
        ensures does { Does C.meaning relieve self.old self.new (entered result) }
        ensures picks { Relieves (told (C.meaning self.old.cipher) self.old).lines result }
    {
        let number = self.table.longest().ok_or(BookFault::NoDelay)?;
        let hour = self.undo(number)?;
        Ok((number, hour))
    }
}
