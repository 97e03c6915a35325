ghost use Rattle.words.specs.Words.{Row};
ghost use Rattle.turning.specs.Turned.{Name};
ghost use Rattle.book.specs.Single.{name_prop, row_prop};

use order_table::Table;
use timetable::{BaseHour, Timetable};

// A plain struct of cipher, name, base hour, timetable, present register and order table, which is the form that is asked
// of a book. No `impl Model` as its ledger: a refusal leaves the book itself as it was, and not its ledger alone.
#[derive(Drop)]
pub struct Book<C> {
    pub(crate) cipher: C,
    pub(crate) name: [u8; 8],
    pub(crate) base: BaseHour,
    pub(crate) timetable: Timetable,
    // there is no heap: eight words, of which as many count as the cipher has
    pub(crate) register: [u32; 8],
    pub(crate) table: Table,
    ghost named: { Name name } by { name_prop name },
    ghost row: { Row 8 register } by { row_prop 8 register },
}
