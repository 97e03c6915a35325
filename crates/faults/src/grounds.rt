ghost use Rattle.std.specs.Prelude.{◌≡◌};
ghost use Rattle.faults.specs.Refusals.{cipher_refusal, buffer_refusal, timetable_refusal, order_refusal, sheet_refusal, bench_refusal, message_refusal, trace_refusal, book_refusal, label};

use crate::layer::{Layer, Refusal};

#[derive(Clone, Copy, PartialEq, Eq, Debug)]
pub enum CipherFault {
    // a key under 16 or over 64 bytes
    Key,
    // a block or a start register that has not the cipher's number of words
    Block,
}

#[derive(Clone, Copy, PartialEq, Eq, Debug)]
pub enum BufferFault {
    // shorter than the answer
    Short,
}

// Each case holds its place.
#[derive(Clone, Copy, PartialEq, Eq, Debug)]
pub enum TimetableFault {
    // a base hour over 1,000,000
    Base(usize),
    // no open hour
    Closed(usize),
}

// Each case holds its place.
#[derive(Clone, Copy, PartialEq, Eq, Debug)]
pub enum OrderFault {
    // a letter that is neither 'D' nor 'N'
    Letter(usize),
    // an amount out of the letter's range
    Amount(usize),
}

#[derive(Clone, Copy, PartialEq, Eq, Debug)]
pub enum SheetFault {
    // too short: how many bytes were given
    Short(usize),
    // more than 64 orders, or a total that does not fit their number
    Sizes,
    // bytes after the total
    Trailing(usize),
    Timetable(TimetableFault),
    Order(OrderFault),
}

#[derive(Clone, Copy, PartialEq, Eq, Debug)]
pub enum BenchFault {
    // no input, or a mark that names no cipher
    Mark,
    Cipher(CipherFault),
    Sheet(SheetFault),
}

#[derive(Clone, Copy, PartialEq, Eq, Debug)]
pub enum MessageFault {
    // the addition would pass 16,777,216 bytes
    Limit,
}

#[derive(Clone, Copy, PartialEq, Eq, Debug)]
pub enum TraceFault {
    // a message over 16,777,216 bytes
    Long,
    // the messages are equal
    Equal,
    // their digests differ
    Differ,
}

#[derive(Clone, Copy, PartialEq, Eq, Debug)]
pub enum BookFault {
    Cipher(CipherFault),
    Buffer(BufferFault),
    Timetable(TimetableFault),
    Order(OrderFault),
    // set-up after an order was granted
    Begun,
    // 64 numbers are given
    Full,
    // no order has the number
    Absent,
    // the order was undone before
    Undone,
    // no delay is in force
    NoDelay,
}

impl Layer {
    // The layer's name as a refusal prints it: bytes, and no `Display`, since lines are put together in fixed memory,
    // and the library's printing promises its text only where writing succeeds.
    pub fn name(self) -> &'static [u8]
        ensures { result.now ≡ label self }
    {
        match self {
            Layer::Cipher => b"cipher",
            Layer::Buffer => b"buffer",
            Layer::Timetable => b"timetable",
            Layer::Order => b"order",
            Layer::Sheet => b"sheet",
            Layer::Bench => b"bench",
            Layer::Message => b"message",
            Layer::Trace => b"trace",
            Layer::Book => b"book",
        }
    }
}

fn refused(number: u8, layer: Layer, place: usize) -> Refusal
    ensures { result ≡ record { number = number; layer = layer; place = place } }
{
    Refusal {
        number,
        layer,
        place,
    }
}

impl From<CipherFault> for Refusal {
    ghost from_gives = { λ e r. r ≡ cipher_refusal e };

    fn from(e: CipherFault) -> Refusal {
        match e {
            CipherFault::Key => refused(11, Layer::Cipher, 0),
            CipherFault::Block => refused(12, Layer::Cipher, 0),
        }
    }
}

impl From<BufferFault> for Refusal {
    ghost from_gives = { λ e r. r ≡ buffer_refusal e };

    fn from(e: BufferFault) -> Refusal {
        match e {
            BufferFault::Short => refused(13, Layer::Buffer, 0),
        }
    }
}

impl From<TimetableFault> for Refusal {
    ghost from_gives = { λ e r. r ≡ timetable_refusal e };

    fn from(e: TimetableFault) -> Refusal {
        match e {
            TimetableFault::Base(at) => refused(14, Layer::Timetable, at),
            TimetableFault::Closed(at) => refused(15, Layer::Timetable, at),
        }
    }
}

impl From<OrderFault> for Refusal {
    ghost from_gives = { λ e r. r ≡ order_refusal e };

    fn from(e: OrderFault) -> Refusal {
        match e {
            OrderFault::Letter(at) => refused(16, Layer::Order, at),
            OrderFault::Amount(at) => refused(17, Layer::Order, at),
        }
    }
}

impl From<SheetFault> for Refusal {
    ghost from_gives = { λ e r. r ≡ sheet_refusal e };

    fn from(e: SheetFault) -> Refusal {
        match e {
            SheetFault::Short(given) => refused(18, Layer::Sheet, given),
            SheetFault::Sizes => refused(19, Layer::Sheet, 0),
            SheetFault::Trailing(total) => refused(20, Layer::Sheet, total),
            SheetFault::Timetable(f) => f.into(),
            SheetFault::Order(f) => f.into(),
        }
    }
}

impl From<BenchFault> for Refusal {
    ghost from_gives = { λ e r. r ≡ bench_refusal e };

    fn from(e: BenchFault) -> Refusal {
        match e {
            BenchFault::Mark => refused(24, Layer::Bench, 0),
            BenchFault::Cipher(f) => f.into(),
            BenchFault::Sheet(f) => f.into(),
        }
    }
}

impl From<MessageFault> for Refusal {
    ghost from_gives = { λ e r. r ≡ message_refusal e };

    fn from(e: MessageFault) -> Refusal {
        match e {
            MessageFault::Limit => refused(31, Layer::Message, 0),
        }
    }
}

impl From<TraceFault> for Refusal {
    ghost from_gives = { λ e r. r ≡ trace_refusal e };

    fn from(e: TraceFault) -> Refusal {
        match e {
            TraceFault::Equal => refused(21, Layer::Trace, 0),
            TraceFault::Differ => refused(22, Layer::Trace, 0),
            TraceFault::Long => refused(23, Layer::Trace, 0),
        }
    }
}

impl From<BookFault> for Refusal {
    ghost from_gives = { λ e r. r ≡ book_refusal e };

    fn from(e: BookFault) -> Refusal {
        match e {
            BookFault::Cipher(f) => f.into(),
            BookFault::Buffer(f) => f.into(),
            BookFault::Timetable(f) => f.into(),
            BookFault::Order(f) => f.into(),
            BookFault::Begun => refused(32, Layer::Book, 0),
            BookFault::Full => refused(33, Layer::Book, 0),
            BookFault::Absent => refused(34, Layer::Book, 0),
            BookFault::Undone => refused(35, Layer::Book, 0),
            BookFault::NoDelay => refused(36, Layer::Book, 0),
        }
    }
}
