// The register turned by orders: encrypted under the key of each, in sequence, or decrypted back, the last first. For
// every cipher; that the one undoes the other is proved from the cipher's laws.
#![tactic(auto)]

ghost use Rattle.std.specs.Prelude.{◌≡◌, map, fold, length, take, drop};
ghost use Rattle.std.specs.Iterator.{IsFinite, Drains};
ghost use Rattle.words.specs.Words.{Row};
ghost use Rattle.order.specs.Orders.{key};
ghost use Rattle.order.specs.Views.{view};
ghost use Rattle.turning.specs.Turned.{Name, turned, back};

use cipher::{Cipher, Decrypt, Direction, Encrypt};
use order::Order;

// Turns a register under the key of each order that is given. Here and below cipher, name and register come apart: they
// are parts of a book, which this crate does not know, and a struct of them would be made for each call.
fn along<'a, D: Direction, C: Cipher, I: Iterator<Item = &'a Order> + Drop>(
    cipher: &C,
    name: &[u8; 8],
    orders: I,
    register: &mut [u32],
)
    requires can { I.can_next orders }
    requires ends { IsFinite (I.remaining orders) }
    requires wide { length register.old ≡ (C.meaning cipher.now).width }
    ensures { (xs : _) × Drains I.next_gives orders xs × (register.new ≡ fold (λ r o. D.way (C.meaning cipher.now) (key name.now (view o.now)) r) register.old xs) }
{
    for order in orders {
        let _ = D::turn(cipher, &order.key_words(name), register);
    }
}

// Turns the front of a register, as wide as the cipher, on by orders. That the name is eight bytes and the front is
// words is said for the caller. This and the next are the names of `along` for callers: it takes
// an iterator, and asks three things of them.
pub fn turn_on<C: Cipher>(cipher: &C, name: &[u8; 8], orders: &[Order], register: &mut [u32; 8])
    ensures turns { take (C.meaning cipher.now).width register.new ≡ turned (C.meaning cipher.now) name.now (take (C.meaning cipher.now).width register.old) (map view orders.now) }
    ensures rest { drop (C.meaning cipher.now).width register.new ≡ drop (C.meaning cipher.now).width register.old }
    ensures named { Name name.now }
    ensures row { Row (C.meaning cipher.now).width (take (C.meaning cipher.now).width register.old) }
{
    let front = &mut register[..cipher.width()];
    along::<Encrypt, C, _>(cipher, name, orders.iter(), front);
}

// Turns the front of a register back by orders, the last first. The same is said for the caller.
pub fn turn_back<C: Cipher>(cipher: &C, name: &[u8; 8], orders: &[Order], register: &mut [u32; 8])
    ensures turns { take (C.meaning cipher.now).width register.new ≡ back (C.meaning cipher.now) name.now (take (C.meaning cipher.now).width register.old) (map view orders.now) }
    ensures rest { drop (C.meaning cipher.now).width register.new ≡ drop (C.meaning cipher.now).width register.old }
    ensures named { Name name.now }
    ensures row { Row (C.meaning cipher.now).width (take (C.meaning cipher.now).width register.old) }
{
    let front = &mut register[..cipher.width()];
    along::<Decrypt, C, _>(cipher, name, orders.iter().rev(), front);
}
