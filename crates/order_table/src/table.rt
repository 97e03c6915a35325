ghost use Rattle.std.specs.Prelude.{◌≡◌, ◌≤◌, [], map, length};
ghost use Rattle.order.specs.Views.{listed};
ghost use Rattle.order_table.specs.Lines.{orders};
ghost use Rattle.order_table.specs.Views.{view, lines_of, Entered, Undid, Picks};

use crate::finding::{find, in_force_of, longest_of};
use crate::line::{Line, Table};
use faults::BookFault;
use order::{Order, Orders};

impl Table {
    // A table of no lines.
    pub fn new() -> Table
        ensures { lines_of result ≡ [] }
    {
        let order = Order::new('D', 1).unwrap();
        let unused = Line {
            order,
            undone: false,
        };
        Table {
            lines: [unused; 64],
            count: 0,
        }
    }

    // The lines, the first number first.
    pub fn lines(&self) -> &[Line]
        ensures value { map view result.now ≡ lines_of self.now }
        ensures few { length result.now ≤ 64 }
    {
        &self.lines[0..self.count]
    }

    // Puts an order in force behind the others, and answers its number. Refused where 64 numbers are given.
    pub fn enter(&mut self, order: Order) -> Result<usize, BookFault>
        ensures { Entered self.old self.new order result }
    {
        let at = self.count;
        if at >= 64 {
            return Err(BookFault::Full);
        }
        self.lines[at] = Line {
            order,
            undone: false,
        };
        self.count = at + 1;
        Ok(at + 1)
    }

    // Marks the line of a number undone, and hands out its order and the orders in force behind it. Refused where
    // there is no such line, or it was undone before.
    pub fn undo(&mut self, number: usize) -> Result<(Order, Orders), BookFault>
        ensures { Undid self.old self.new number result }
    {
        let at = find(self.lines(), number)?;
        let order = self.lines[at].order;
        self.lines[at].undone = true;
        Ok((order, in_force_of(&self.lines()[at + 1..])))
    }

    // The number of the longest delay in force, of equals the highest; none where no delay is in force.
    pub fn longest(&self) -> Option<usize>
        ensures { Picks (lines_of self.now) result }
    {
        longest_of(self.lines())
    }

    // The orders in force, in the sequence of their numbers.
    pub fn in_force(&self) -> Orders
        ensures { listed result ≡ orders (lines_of self.now) }
    {
        in_force_of(self.lines())
    }
}
