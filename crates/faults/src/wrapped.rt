// A fault of a lower layer passes through an upper one whole, by `?`. By hand: the `From` that the kit's `thiserror`
// derives has no contract, and callers' contracts tell which fault came through.
ghost use Rattle.std.specs.Prelude.{◌≡◌};
ghost use Rattle.faults.specs.declared.grounds.SheetFault.TheVariants.{Timetable as InTimetable, Order as InOrder};
ghost use Rattle.faults.specs.declared.grounds.BenchFault.TheVariants.{Cipher as InCipher, Sheet as InSheet};
ghost use Rattle.faults.specs.declared.grounds.BookFault.TheVariants.{Cipher as ByCipher, Buffer as ByBuffer, Timetable as ByTimetable, Order as ByOrder};

use crate::grounds::{
    BenchFault, BookFault, BufferFault, CipherFault, OrderFault, SheetFault, TimetableFault,
};

impl From<TimetableFault> for SheetFault {
    ghost from_gives = { λ e r. r ≡ InTimetable e };

    fn from(e: TimetableFault) -> SheetFault {
        SheetFault::Timetable(e)
    }
}

impl From<OrderFault> for SheetFault {
    ghost from_gives = { λ e r. r ≡ InOrder e };

    fn from(e: OrderFault) -> SheetFault {
        SheetFault::Order(e)
    }
}

impl From<CipherFault> for BenchFault {
    ghost from_gives = { λ e r. r ≡ InCipher e };

    fn from(e: CipherFault) -> BenchFault {
        BenchFault::Cipher(e)
    }
}

impl From<SheetFault> for BenchFault {
    ghost from_gives = { λ e r. r ≡ InSheet e };

    fn from(e: SheetFault) -> BenchFault {
        BenchFault::Sheet(e)
    }
}

impl From<CipherFault> for BookFault {
    ghost from_gives = { λ e r. r ≡ ByCipher e };

    fn from(e: CipherFault) -> BookFault {
        BookFault::Cipher(e)
    }
}

impl From<BufferFault> for BookFault {
    ghost from_gives = { λ e r. r ≡ ByBuffer e };

    fn from(e: BufferFault) -> BookFault {
        BookFault::Buffer(e)
    }
}

impl From<TimetableFault> for BookFault {
    ghost from_gives = { λ e r. r ≡ ByTimetable e };

    fn from(e: TimetableFault) -> BookFault {
        BookFault::Timetable(e)
    }
}

impl From<OrderFault> for BookFault {
    ghost from_gives = { λ e r. r ≡ ByOrder e };

    fn from(e: OrderFault) -> BookFault {
        BookFault::Order(e)
    }
}
