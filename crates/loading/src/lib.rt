// A book loaded from a sheet: set up from a start register and the sheet's contents, with its orders entered in sequence.
// Its ledger is the one that the sheet describes. For every cipher.
#![tactic(auto)]

ghost use Rattle.std.specs.Prelude.{◌≡◌, [], length};
ghost use Rattle.sheet.specs.Reading.{orders};
ghost use Rattle.book.specs.Told.{told};
ghost use Rattle.loading.specs.Loaded.{entered, loaded, Loads};

use book::Book;
use cipher::Cipher;
use faults::BenchFault;
use sheet::Reader;
use words::read_words;

// The orders of a sheet, one after the other: an option of an order, taken apart by the loop, is the form asked for.
fn enter_all<C: Cipher>(book: &mut Book<C>, reader: &Reader<'_>)
    requires { (told (C.meaning book.old.cipher) book.old).lines ≡ [] }
    ensures same { book.new.cipher ≡ book.old.cipher }
    ensures after { told (C.meaning book.old.cipher) book.new ≡ record { given = (told (C.meaning book.old.cipher) book.old).given; lines = entered (orders reader.now.sheet.bytes.now) } }
{
    let mut rest = reader.orders();
    while let Some(order) = rest.next() {
        let _ = book.enter(char::from(order.letter()), order.amount());
    }
}

// A book of an accepted sheet.
fn open<C: Cipher>(cipher: C, start: &[u32], reader: &Reader<'_>) -> Book<C>
    requires { length start.now ≡ (C.meaning cipher).width }
    ensures same { result.cipher ≡ cipher }
    ensures value { told (C.meaning cipher) result ≡ loaded start.now reader.now.sheet.bytes.now }
{
    let mut book = Book::new(cipher);
    let _ = book.set_up(
        *reader.name(),
        reader.base_hour(),
        *reader.timetable(),
        start,
    );
    enter_all(&mut book, reader);
    book
}

// The same where the start register is read into room that is as wide as the cipher.
fn load_into<C: Cipher + Drop>(
    cipher: C,
    start: &mut [u32],
    register: &[u8],
    sheet: &[u8],
) -> Result<Book<C>, BenchFault>
    requires { length start.old ≡ (C.meaning cipher).width }
    ensures { Loads C.meaning cipher register.now sheet.now result }
{
    read_words(register, start)?;
    let reader = Reader::open(sheet)?;
    Ok(open(cipher, start, &reader))
}

// A book of a start register and a sheet, both in bytes. A register of another size than the cipher's is refused, then a
// sheet on its first fault. The two come apart, since they are read by two crates: a struct would be taken apart at once.
pub fn load<C: Cipher + Drop>(
    cipher: C,
    register: &[u8],
    sheet: &[u8],
) -> Result<Book<C>, BenchFault>
    ensures { Loads C.meaning cipher register.now sheet.now result }
{
    let width = cipher.width();
    // there is no heap: room for the widest cipher, of which this one's words count
    let mut start = [0u32; 8];
    load_into(cipher, &mut start[..width], register, sheet)
}
