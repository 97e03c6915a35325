ghost use Rattle.std.specs.Prelude.{◌≡◌, ◌*◌, ◌≤◌, ◌++◌, map, length, drop};
ghost use Rattle.words.specs.Buffer.{Fills};
ghost use Rattle.order.specs.Views.{view, listed};
ghost use Rattle.sheet.specs.Sheets.{head, letters, amounts, sheet};
ghost use Rattle.sheet.specs.Views.{ReadsBack};

use faults::BufferFault;
use order::{Order, Orders};
use timetable::{BaseHour, Timetable};

// The 37 bytes in front of the orders.
fn put_head(count: usize, base: u32, name: &[u8; 8], table: &[u8; 21], out: &mut [u8])
    requires few { count ≤ 64 }
    requires room { 37 ≤ length out.old }
    ensures { out.new ≡ head count base name.now table.now ++ drop 37 out.old }
{
    out[0..2].copy_from_slice(&(count as u16).to_be_bytes());
    out[2..4].copy_from_slice(&((37 + 5 * count) as u16).to_be_bytes());
    out[4..8].copy_from_slice(&base.to_be_bytes());
    out[8..16].copy_from_slice(name);
    out[16..37].copy_from_slice(table);
}

fn put_letters(orders: &[Order], out: &mut [u8])
    requires { length orders.now ≤ length out.old }
    ensures { out.new ≡ letters (map view orders.now) ++ drop (length orders.now) out.old }
{
    // by number, here and below: of what `zip` writes to a row lent as `&mut` the library tells nothing
    for (i, order) in orders.iter().enumerate() {
        out[i] = order.letter();
    }
}

fn put_amounts(orders: &[Order], out: &mut [u8])
    requires few { length orders.now ≤ 64 }
    requires room { 4 * length orders.now ≤ length out.old }
    ensures { out.new ≡ amounts (map view orders.now) ++ drop (4 * length orders.now) out.old }
{
    for (i, order) in orders.iter().enumerate() {
        out[4 * i..4 * i + 4].copy_from_slice(&order.amount().to_be_bytes());
    }
}

// Writes the sheet of a set-up and its orders to the front of a buffer, and answers its length. The set-up comes in the
// three parts that a book holds: a struct of them would be made for this one call, and taken apart in it.
pub fn write(
    name: &[u8; 8],
    base: BaseHour,
    timetable: &Timetable,
    orders: &Orders,
    out: &mut [u8],
) -> Result<usize, BufferFault>
    ensures fills { Fills (sheet name.now base.hour timetable.now.bytes (listed orders.now)) out.old out.new result }
    ensures reads_back { ReadsBack name.now base.hour timetable.now.bytes (listed orders.now) out.new result }
{
    let lines = orders.as_slice();
    let n = lines.len();
    let total = 37 + 5 * n;
    if out.len() < total {
        return Err(BufferFault::Short);
    }
    put_head(n, base.hour(), name, timetable.bytes(), out);
    put_letters(lines, &mut out[37..]);
    put_amounts(lines, &mut out[37 + n..]);
    Ok(total)
}
