// Tests of the trace through its public call. The expected places come from an independent model that keeps every
// chaining value, those under the practice cipher also by hand: its step doubles a value and adds the block's first
// two words.
#![tactic(auto)]

#[cfg(test)]
mod tests {
    use faults::TraceFault;
    use practice::Practice;
    use shacal1::Shacal1;
    use shacal2::Shacal2;
    use std::process::Abort;
    use std::test::Fail;
    use trace::trace;

    // The published collision of SHA-1: a front of three blocks, and two blocks each behind it.
    const FRONT: &[u8; 192] =
        b"%PDF-1.3\x0A%\xE2\xE3\xCF\xD3\x0A\x0A\x0A1 0 obj\x0A<</Width 2 0 R/Height 3 0 R/Type 4 0 R/Subtype 5 0 R/Filter 6 0 R/ColorSpace 7 0 R/Length 8 0 R/BitsPerComponent 8>>\x0Astream\x0A\xFF\xD8\xFF\xFE\x00$SHA-1 is dead!!!!!\x85/\xEC\x09#9u\x9C9\xB1\xA1\xC6<L\x97\xE1\xFF\xFE\x01";

    const ONE: &[u8; 128] =
        b"\x7FF\xDC\x93\xA6\xB6~\x01;\x02\x9A\xAA\x1D\xB2V\x0BE\xCAg\xD6\x88\xC7\xF8K\x8CLy\x1F\xE0+=\xF6\x14\xF8m\xB1i\x09\x01\xC5kE\xC1S\x0A\xFE\xDF\xB7`8\xE9rr/\xE7\xADr\x8F\x0EI\x04\xE0F\xC20W\x0F\xE9\xD4\x13\x98\xAB\xE1.\xF5\xBC\x94+\xE35B\xA4\x80-\x98\xB5\xD7\x0F*3.\xC3\x7F\xAC5\x14\xE7M\xDC\x0F,\xC1\xA8t\xCD\x0Cx0Z!Vda0\x97\x89`k\xD0\xBF?\x98\xCD\xA8\x04F)\xA1";

    const OTHER: &[u8; 128] =
        b"sF\xDC\x91f\xB6~\x11\x8F\x02\x9A\xB6!\xB2V\x0F\xF9\xCAg\xCC\xA8\xC7\xF8[\xA8Ly\x03\x0C+=\xE2\x18\xF8m\xB3\xA9\x09\x01\xD5\xDFE\xC1O&\xFE\xDF\xB3\xDC8\xE9j\xC2/\xE7\xBDr\x8F\x0EE\xBC\xE0F\xD2<W\x0F\xEB\x14\x13\x98\xBBU.\xF5\xA0\xA8+\xE31\xFE\xA4\x807\xB8\xB5\xD7\x1F\x0E3.\xDF\x93\xAC5\x00\xEBM\xDC\x0D\xEC\xC1\xA8dy\x0Cx,v!V`\xDD0\x97\x91\xD0k\xD0\xAF?\x98\xCD\xA4\xBCF)\xB1";

    const SHORT: &[u8; 8] = b"\x7F\xFF\xFF\xFE\xFF\xFF\xFF\xFC";

    #[test]
    fn one_block(rt: HostRuntime) {
        assert_eq!(rt; trace(&Practice, b"abcdefgh1", b"abcdefgh2"), Ok((0, 0)));
        // lengths alone differ
        assert_eq!(rt; trace(&Practice, b"abcdefgh", b"abcdefgh\0"), Ok((0, 0)));
    }

    #[test]
    fn refused(rt: HostRuntime) {
        assert_eq!(rt; trace(&Practice, b"", b""), Err(TraceFault::Equal));
        assert_eq!(rt;
            trace(&Practice, b"abcdefgh", b"abcdefgh"),
            Err(TraceFault::Equal)
        );
        assert_eq!(rt;
            trace(&Practice, b"abcdefg1", b"abcdefg2"),
            Err(TraceFault::Differ)
        );
        assert_eq!(rt;
            trace(&Shacal1, b"abcdefgh1", b"abcdefgh2"),
            Err(TraceFault::Differ)
        );
        assert_eq!(rt;
            trace(&Shacal2, b"abcdefgh1", b"abcdefgh2"),
            Err(TraceFault::Differ)
        );
    }

    // Bytes that the step passes over differ in blocks 1 and 2 of four.
    #[test]
    fn last_of_two_places(rt: HostRuntime) {
        let x = [b'.'; 200];
        let mut y = x;
        y[84] = 0;
        assert_eq!(rt; trace(&Practice, &x, &y), Ok((1, 1)));
        y[140] = 0;
        assert_eq!(rt; trace(&Practice, &x, &y), Ok((2, 2)));
    }

    // The highest bit of a word is lost in the second doubling: from block 1 on the blocks are equal, and still the
    // chaining values before block 1 differ. The third highest bit is lost in the fourth.
    #[test]
    fn equal_blocks(rt: HostRuntime) {
        let x = [b'.'; 330];
        let mut y = x;
        y[0] = b'.' ^ 0x80;
        assert_eq!(rt; trace(&Practice, &x, &y), Ok((1, 1)));
        y[0] = b'.' ^ 0x20;
        assert_eq!(rt; trace(&Practice, &x, &y), Ok((3, 3)));
    }

    // One block against two, and either first.
    #[test]
    fn unequal_counts(rt: HostRuntime) {
        let x = b"CFINORU\\";
        let y =
            b"\x01\x02\x03\x04\x05\x06\x07\x08\x09\x0A\x0B\x0C\x0D\x0E\x0F\x10\x11\x12\x13\x14\x15\x16\x17\x18\x19\x1A\x1B\x1C\x1D\x1E\x1F !\x22#$%&'()*+,-./0123456789:;<=>?@ABCDEFGH";
        assert_eq!(rt; trace(&Practice, x, y), Ok((0, 1)));
        assert_eq!(rt; trace(&Practice, y, x), Ok((1, 0)));
    }

    #[test]
    fn sha1_collision(rt: HostRuntime) {
        let mut x = [0u8; 320];
        x[0..192].copy_from_slice(FRONT);
        let mut y = x;
        x[192..320].copy_from_slice(ONE);
        y[192..320].copy_from_slice(OTHER);
        assert_eq!(rt; trace(&Shacal1, &x, &y), Ok((4, 4)));
        // blocks 3 alone differ as well, and do not collide
        assert_eq!(rt;
            trace(&Shacal1, &x[0..256], &y[0..256]),
            Err(TraceFault::Differ)
        );
        assert_eq!(rt; trace(&Shacal2, &x, &y), Err(TraceFault::Differ));
    }

    // 16,777,216 bytes are taken, one more is not, whatever else holds. So many zeros, in 262,145 blocks, have the digest
    // 0x80000000, 0, which eight bytes have too.
    #[test]
    fn limit(rt: HostRuntime) -> Result<(), Fail> {
        at_limit(&rt, &vec![in rt.alloc(); 0u8; 16_777_217]?);
        Ok(())
    }

    fn at_limit(rt: &impl Abort, all: &[u8]) {
        let n = 16_777_216;
        assert!(rt; all.len() == n + 1);
        let most = &all[0..n];
        assert_eq!(rt; trace(&Practice, all, all), Err(TraceFault::Long));
        assert_eq!(rt; trace(&Practice, all, b""), Err(TraceFault::Long));
        assert_eq!(rt; trace(&Practice, b"", all), Err(TraceFault::Long));
        assert_eq!(rt; trace(&Practice, most, most), Err(TraceFault::Equal));
        assert_eq!(rt; trace(&Practice, most, b""), Err(TraceFault::Differ));
        assert_eq!(rt; trace(&Practice, most, SHORT), Ok((262_144, 0)));
        assert_eq!(rt; trace(&Practice, SHORT, most), Ok((0, 262_144)));
    }
}
