ghost use Rattle.std.specs.Prelude.{◌≡◌, ◌^◌, ◌<◌, IfOk, IfErr, is_some, nat_lt};
ghost use Rattle.std.proofs.Math.Option.{none, some};
ghost use Rattle.sheet.specs.Reading.{count as count_of, base, name as name_of, table, sheet_fault};
ghost use Rattle.sheet.specs.Contents.{OneSheet};
ghost use Rattle.sheet.specs.Views.{Shows};

use crate::checks::SizedBytes;
use faults::SheetFault;
use order::Order;

// A sheet in the caller's bytes, in which no fault was found.
#[derive(Clone, Copy)]
pub struct Reader<'a> {
    pub(crate) sheet: SizedBytes<'a>,
    ghost faultless: { sheet_fault sheet.bytes.now ≡ none },
}

impl<'a> Reader<'a> {
    // A reader over the bytes, or the first fault in them.
    pub fn open(bytes: &'a [u8]) -> Result<Reader<'a>, SheetFault>
        ensures opened { IfOk result (λ s. (s.sheet.bytes.now ≡ bytes.now) × OneSheet bytes.now) }
        ensures refused { IfErr result (λ f. sheet_fault bytes.now ≡ some f) }
    {
        let sheet = SizedBytes::of(bytes)?;
        sheet.check_set_up()?;
        sheet.check_orders()?;
        Ok(Reader { sheet })
    }

    pub fn base_hour(&self) -> u32
        ensures { result ≡ base self.now.sheet.bytes.now }
    {
        self.sheet.base_hour()
    }

    // The lock's name, where it stands in the caller's bytes.
    pub fn name(&self) -> &'a [u8; 8]
        ensures { result.now ≡ name_of self.now.sheet.bytes.now }
    {
        self.sheet.name()
    }

    // The timetable, where it stands in the caller's bytes.
    pub fn timetable(&self) -> &'a [u8; 21]
        ensures { result.now ≡ table self.now.sheet.bytes.now }
    {
        self.sheet.timetable()
    }

    // How many orders there are.
    pub fn count(&self) -> usize
        ensures value { result ≡ count_of self.now.sheet.bytes.now }
        ensures fits { result < 2 ^ 16 }
    {
        self.sheet.count
    }

    // The order of a number, counted from 0; none past the last.
    pub fn order(&self, i: usize) -> Option<Order>
        ensures value { Shows self.now.sheet.bytes.now i result }
        ensures read { is_some result ≡ nat_lt i (count_of self.now.sheet.bytes.now) }
    {
        if i >= self.count() {
            return None;
        }
        self.sheet.order(i).ok()
    }
}
