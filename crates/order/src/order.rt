ghost use Rattle.std.specs.Prelude.{◌≡◌, ◌^◌, ◌<◌, ◌≤◌};
ghost use Rattle.order.specs.Orders.{earliest, apply, key_bytes, key};
ghost use Rattle.order.specs.Views.{view, Makes};

use crate::kind::{Kind, Order};
use faults::OrderFault;
use timetable::Timetable;

impl Order {
    // An order of a letter and an amount: 'D' with 1 to 720 hours, 'N' with an hour up to 1,000,000. The letter is a
    // `char`, as it is entered, and the two come apart: a struct of them would be an order that nobody has checked.
    pub fn new(letter: char, amount: u32) -> Result<Order, OrderFault>
        ensures { Makes 0 0 letter amount result }
    {
        Order::at(0, 0, letter, amount)
    }

    // The same, of a letter and an amount that stand at two bytes of a sheet: the refusal tells which.
    pub fn at(
        letter_place: usize,
        amount_place: usize,
        letter: char,
        amount: u32,
    ) -> Result<Order, OrderFault>
        ensures { Makes letter_place amount_place letter amount result }
    {
        match letter {
            'D' if amount >= 1 && amount <= 720 => Ok(Order {
                kind: Kind::Delay,
                value: amount,
            }),
            'N' if amount <= 1_000_000 => Ok(Order {
                kind: Kind::NotBefore,
                value: amount,
            }),
            'D' | 'N' => Err(OrderFault::Amount(amount_place)),
            _ => Err(OrderFault::Letter(letter_place)),
        }
    }

    pub fn kind(self) -> Kind
        ensures { result ≡ self.kind }
    {
        self.kind
    }

    pub fn letter(self) -> u8
        ensures { result ≡ (view self).letter }
    {
        u8::from(self.kind)
    }

    pub fn amount(self) -> u32
        ensures value { result ≡ (view self).amount }
        ensures most { result ≤ 1000000 }
    {
        self.value
    }

    // The hour from which the order lets the lock open, whether the timetable has it open or not.
    fn earliest(self, hour: u32) -> u64
        ensures value { result ≡ earliest hour (view self) }
        ensures fits { result < 2 ^ 33 }
    {
        match self.kind {
            Kind::Delay => u64::from(hour) + u64::from(self.amount()),
            Kind::NotBefore => u64::from(hour.max(self.amount())),
        }
    }

    // The opening hour after this order, from the one before it.
    pub fn after(self, timetable: &Timetable, hour: u32) -> u64
        ensures { result ≡ apply timetable.now.bytes hour (view self) }
    {
        let from = self.earliest(hour);
        from + timetable.wait(from)
    }

    // The sixteen bytes of the order's key under a lock's name: letter, three zero bytes, amount, name.
    pub fn key(self, name: &[u8; 8]) -> [u8; 16]
        ensures { result ≡ key_bytes name.now (view self) }
    {
        let [a, b, c, d] = self.amount().to_be_bytes();
        let [e, f, g, h, i, j, k, l] = *name;
        [self.letter(), 0, 0, 0, a, b, c, d, e, f, g, h, i, j, k, l]
    }

    // The sixteen words that the key fills up to with zero bytes.
    pub fn key_words(self, name: &[u8; 8]) -> [u32; 16]
        ensures { result ≡ key name.now (view self) }
    {
        let [a, b, c, d, e, f, g, h] = *name;
        let mut words = [0u32; 16];
        words[0] = u32::from_be_bytes([self.letter(), 0, 0, 0]);
        words[1] = self.amount();
        words[2] = u32::from_be_bytes([a, b, c, d]);
        words[3] = u32::from_be_bytes([e, f, g, h]);
        words
    }
}
