// The orders of a sheet, one after the other.
ghost use Rattle.std.specs.Prelude.{◌≡◌};
ghost use Rattle.std.specs.Iterator.{YieldsFirstBy, item_count};
ghost use Rattle.order.specs.Views.{view};
ghost use Rattle.sheet.specs.Reading.{orders as orders_of};
ghost use Rattle.sheet.specs.Rest.{rest};

use crate::reading::Reader;
use order::Order;

// The orders of a sheet that are still to come, by the number of the next. A type of its own, and no chain over the numbers:
// no `impl Iterator` can be handed out.
#[derive(Clone, Copy)]
pub struct SheetOrders<'a> {
    reader: Reader<'a>,
    next: usize,
}

impl<'a> Reader<'a> {
    // The orders in their sequence.
    pub fn orders(&self) -> SheetOrders<'a>
        ensures { rest result ≡ orders_of self.now.sheet.bytes.now }
    {
        SheetOrders {
            reader: *self,
            next: 0,
        }
    }
}

impl<'a> Iterator for SheetOrders<'a> {
    type Item = Order;

    ghost next_gives = { YieldsFirstBy view rest };

    ghost remaining = { item_count rest };

    fn next(&mut self) -> Option<Order> {
        let order = self.reader.order(self.next)?;
        self.next += 1;
        Some(order)
    }
}
