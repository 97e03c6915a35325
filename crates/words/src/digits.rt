// A byte in hexadecimal digits.
ghost use Rattle.std.specs.Prelude.{◌≡◌, ◌/◌, ◌%◌, [], ◌∷◌};
ghost use Rattle.words.specs.Hex.{digit as digit_of};

use hex::encode_to_slice;

// The two digits of a byte, the high one first.
pub fn hex_digits(byte: u8) -> [u8; 2]
    ensures { result ≡ digit_of (byte / 16) ∷ digit_of (byte % 16) ∷ [] }
{
    let mut digits = [0; 2];
    encode_to_slice([byte], &mut digits).unwrap();
    digits
}
