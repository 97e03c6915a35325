ghost use Rattle.std.specs.Prelude.{◌≡◌, ◌≤◌, map, length};
ghost use Rattle.order.specs.Views.{listed};
ghost use Rattle.order_table.specs.Lines.{orders};
ghost use Rattle.order_table.specs.Views.{view, Found, Picks};

use crate::line::Line;
use faults::BookFault;
use order::{Kind, Orders};

// The place of the line of a number, if it is in force.
pub(crate) fn find(lines: &[Line], number: usize) -> Result<usize, BookFault>
    ensures { Found lines.now number result }
{
    if number < 1 || number > lines.len() {
        return Err(BookFault::Absent);
    }
    if lines[number - 1].undone {
        return Err(BookFault::Undone);
    }
    Ok(number - 1)
}

// The number of the longest delay in force, of equals the highest number.
pub(crate) fn longest_of(lines: &[Line]) -> Option<usize>
    ensures { Picks (map view lines.now) result }
{
    // `max_by_key` takes the last of equals
    lines
        .iter()
        .enumerate()
        .filter(|(_, line)| !line.undone && line.order.kind() == Kind::Delay)
        .max_by_key(|(_, line)| line.order.amount())
        .map(|(at, _)| at + 1)
}

// The orders in force among lines.
pub(crate) fn in_force_of(lines: &[Line]) -> Orders
    requires { length lines.now ≤ 64 }
    ensures { listed result ≡ orders (map view lines.now) }
{
    let mut standing = Orders::new();
    for line in lines {
        if !line.undone {
            let _ = standing.push(line.order);
        }
    }
    standing
}
