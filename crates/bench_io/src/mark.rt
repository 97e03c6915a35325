ghost use Rattle.std.specs.Prelude.{◌≡◌};
ghost use Rattle.bench_io.specs.Marks.{register_length, Marks};

use faults::BenchFault;

// The cipher that the byte in front of an input names.
#[derive(Clone, Copy, PartialEq, Eq, Debug)]
pub enum Mark {
    Shacal1,
    Shacal2,
    Practice,
}

impl TryFrom<u8> for Mark {
    type Error = BenchFault;

    ghost try_from_gives = { Marks };

    fn try_from(mark: u8) -> Result<Mark, BenchFault> {
        match mark {
            b'1' => Ok(Mark::Shacal1),
            b'2' => Ok(Mark::Shacal2),
            b'P' => Ok(Mark::Practice),
            _ => Err(BenchFault::Mark),
        }
    }
}

impl Mark {
    // How many bytes the cipher's start register has.
    pub fn register_length(self) -> usize
        ensures { result ≡ register_length self }
    {
        match self {
            Mark::Shacal1 => 20,
            Mark::Shacal2 => 32,
            Mark::Practice => 8,
        }
    }
}
