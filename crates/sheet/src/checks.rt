ghost use Rattle.std.specs.Prelude.{◌≡◌, ◌+◌, ◌*◌, ◌<◌, ◌≤◌, length, IfOk};
ghost use Rattle.order.specs.Views.{Makes};
ghost use Rattle.sheet.specs.Reading.{word as word_of, count as count_of, base, name as name_of, table, letter_place, amount_place, order_at, orders, size_checks, set_up_checks, orders_checks};
ghost use Rattle.sheet.specs.Views.{Tells};

use faults::{OrderFault, SheetFault};
use order::Order;
use timetable::{BaseHour, Timetable};

// Bytes whose sizes fit: 37 bytes, and then a letter and an amount for each order.
#[derive(Clone, Copy)]
pub(crate) struct SizedBytes<'a> {
    pub(crate) bytes: &'a [u8],
    pub(crate) count: usize,
    ghost counted: { count ≡ count_of bytes.now },
    ghost few: { count ≤ 64 },
    ghost long: { length bytes.now ≡ 37 + 5 * count },
}

impl<'a> SizedBytes<'a> {
    // The sizes, before anything else is looked at.
    pub(crate) fn of(bytes: &'a [u8]) -> Result<SizedBytes<'a>, SheetFault>
        ensures tells { Tells (size_checks bytes.now) result }
        ensures same { IfOk result (λ s. s.bytes.now ≡ bytes.now) }
    {
        let [a, b, c, d, rest @ ..] = bytes else {
            return Err(SheetFault::Short(bytes.len()));
        };
        let count = usize::from(u16::from_be_bytes([*a, *b]));
        let total = usize::from(u16::from_be_bytes([*c, *d]));
        if rest.len() < 33 {
            return Err(SheetFault::Short(bytes.len()));
        }
        if count > 64 || total != 37 + 5 * count {
            return Err(SheetFault::Sizes);
        }
        if bytes.len() < total {
            return Err(SheetFault::Short(bytes.len()));
        }
        if bytes.len() > total {
            return Err(SheetFault::Trailing(total));
        }
        Ok(SizedBytes { bytes, count })
    }

    // Four bytes from a place on as a number.
    fn word(&self, at: usize) -> u32
        requires { at + 4 ≤ length self.now.bytes.now }
        ensures { result ≡ word_of self.now.bytes.now at }
    {
        u32::from_be_bytes(*self.bytes[at..at + 4].as_array().unwrap())
    }

    pub(crate) fn base_hour(&self) -> u32
        ensures { result ≡ base self.now.bytes.now }
    {
        self.word(4)
    }

    pub(crate) fn name(&self) -> &'a [u8; 8]
        ensures { result.now ≡ name_of self.now.bytes.now }
    {
        self.bytes[8..16].as_array().unwrap()
    }

    pub(crate) fn timetable(&self) -> &'a [u8; 21]
        ensures { result.now ≡ table self.now.bytes.now }
    {
        self.bytes[16..37].as_array().unwrap()
    }

    // The order of a number, counted from 0. Its amount stands behind all letters.
    pub(crate) fn order(&self, i: usize) -> Result<Order, OrderFault>
        requires { i < self.now.count }
        ensures { Makes (letter_place self.now.bytes.now i) (amount_place self.now.bytes.now i) (order_at self.now.bytes.now i).letter (order_at self.now.bytes.now i).amount result }
    {
        let letter_place = 37 + i;
        let amount_place = 37 + self.count + 4 * i;
        let letter = char::from(self.bytes[letter_place]);
        Order::at(letter_place, amount_place, letter, self.word(amount_place))
    }

    pub(crate) fn check_set_up(&self) -> Result<(), SheetFault>
        ensures { Tells (set_up_checks self.now.bytes.now) result }
    {
        let _base = BaseHour::at(4, self.base_hour())?;
        let _timetable = Timetable::at(16, *self.timetable())?;
        Ok(())
    }

    pub(crate) fn check_orders(&self) -> Result<(), SheetFault>
        ensures { Tells (orders_checks self.now.bytes.now 0 (orders self.now.bytes.now)) result }
    {
        // by number: an order is made of its number's two places
        for i in 0..self.count {
            let _order = self.order(i)?;
        }
        Ok(())
    }
}
