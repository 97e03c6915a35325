ghost use Rattle.std.specs.Prelude.{◌≡◌, ◌≤◌, true, [], map, length};
ghost use Rattle.timetable.specs.Hours.{opens_at};
ghost use Rattle.order.specs.Orders.{opening};
ghost use Rattle.order.specs.Views.{view, listed, Pushed};

use crate::kind::{Kind, Order, Orders};
use timetable::{BaseHour, Timetable};

impl Orders {
    pub fn new() -> Orders
        ensures { listed result ≡ [] }
    {
        let unused = Order {
            kind: Kind::Delay,
            value: 1,
        };
        Orders {
            lines: [unused; 64],
            count: 0,
        }
    }

    // Puts an order behind the others, or hands it back where there are 64.
    pub fn push(&mut self, order: Order) -> Result<(), Order>
        ensures { Pushed self.old self.new order result }
    {
        let at = self.count;
        if at >= 64 {
            return Err(order);
        }
        self.lines[at] = order;
        self.count = at + 1;
        Ok(())
    }

    pub fn as_slice(&self) -> &[Order]
        ensures value { map view result.now ≡ listed self.now }
        ensures few { length result.now ≤ 64 }
    {
        &self.lines[0..self.count]
    }

    // The opening hour of these orders from a base hour on.
    pub fn opening(&self, timetable: &Timetable, base: BaseHour) -> u32
        ensures value { result ≡ opening timetable.now.bytes base.hour (listed self.now) }
        ensures open_hour { opens_at timetable.now.bytes result ≡ true }
        ensures bound { result ≤ 1056935 }
        ensures sharp { result ≤ 1053927 }
    {
        let from = u64::from(base.hour());
        let mut hour = from + timetable.wait(from);
        let orders = self.as_slice();
        for order in orders {
            hour = order.after(timetable, hour as u32);
        }
        hour as u32
    }
}
