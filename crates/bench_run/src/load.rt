ghost use Rattle.std.specs.Prelude.{◌≡◌, MatchResult};
ghost use Rattle.std.proofs.Math.Option.{none, some};
ghost use Rattle.order.specs.Views.{listed};
ghost use Rattle.sheet.specs.Reading.{orders as orders_of, sheet_fault};
ghost use Rattle.bench_run.specs.Bench.{sheet_opening};

use faults::SheetFault;
use order::Orders;
use sheet::Reader;
use timetable::{BaseHour, Timetable};

// The orders of a sheet, one after the other: an option of an order, taken apart by the loop, is the form asked for.
fn load(reader: &Reader<'_>) -> Orders
    ensures { listed result ≡ orders_of reader.now.sheet.bytes.now }
{
    let mut orders = Orders::new();
    let mut rest = reader.orders();
    while let Some(order) = rest.next() {
        let _ = orders.push(order);
    }
    orders
}

// The opening hour of a sheet, or its first fault.
pub(crate) fn opening(sheet: &[u8]) -> Result<u32, SheetFault>
    ensures { MatchResult result (λ h. (sheet_fault sheet.now ≡ none) × (h ≡ sheet_opening sheet.now)) (λ f. sheet_fault sheet.now ≡ some f) }
{
    let reader = Reader::open(sheet)?;
    let base = BaseHour::new(reader.base_hour())?;
    let timetable = Timetable::new(*reader.timetable())?;
    Ok(load(&reader).opening(&timetable, base))
}
