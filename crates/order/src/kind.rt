ghost use Rattle.std.specs.Prelude.{◌≡◌, ◌≤◌, true, length};
ghost use Rattle.order.specs.Orders.{ranged};
ghost use Rattle.order.specs.Kinds.{letter_of};

#[derive(Clone, Copy, PartialEq, Eq, Debug)]
pub enum Kind {
    // wait so many hours
    Delay,
    // stay shut before an hour
    NotBefore,
}

// A kind as its letter.
impl From<Kind> for u8 {
    ghost from_gives = { λ kind letter. letter ≡ letter_of kind };

    fn from(kind: Kind) -> u8 {
        match kind {
            Kind::Delay => b'D',
            Kind::NotBefore => b'N',
        }
    }
}

// An order whose amount is in its kind's range.
#[derive(Clone, Copy)]
pub struct Order {
    pub(crate) kind: Kind,
    pub(crate) value: u32,
    ghost range: { ranged (letter_of kind) value ≡ true },
}

// At most 64 orders, in sequence. An array with a count, since there is no heap here, and the kit's vector of fixed
// room (`arrayvec`) is not `Copy`, which these are, and wants a default order. No type of ours for these and for the order
// table, which is to be a plain struct of its own; what a question wrote is filled otherwise, by the question.
#[derive(Clone, Copy)]
pub struct Orders {
    pub(crate) lines: [Order; 64],
    pub(crate) count: usize,
    ghost long: { length lines ≡ 64 },
    ghost few: { count ≤ 64 },
}
