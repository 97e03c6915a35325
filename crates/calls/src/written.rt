ghost use Rattle.std.specs.Prelude.{◌≡◌, []};
ghost use Rattle.calls.specs.Runs.{written_bytes};

use crate::call::Written;

impl Written {
    pub(crate) fn empty() -> Written
        ensures { written_bytes result ≡ [] }
    {
        Written {
            bytes: [0; 357],
            count: 0,
        }
    }

    // The bytes, in sequence.
    pub fn as_slice(&self) -> &[u8]
        ensures { result.now ≡ written_bytes self.now }
    {
        &self.bytes[..self.count]
    }
}
