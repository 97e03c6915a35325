// Tests of both benches, as tables at each refusal's border, and of the room for their answers.
#![tactic(auto)]

#[cfg(test)]
mod tests {
    use faults::BufferFault;
    use std::process::Abort;
    use std::test::Fail;

    // The practice cipher's mark, a start register of zeros, a sheet with the order D 10, and a byte too many.
    const SAMPLE: &[u8; 52] =
        b"P\0\0\0\0\0\0\0\0\0\x01\0\x2a\0\0\0\x08SAFE0001\0\xff\x80\0\xff\x80\0\xff\x80\0\xff\x80\0\xff\x80\0\0\0\0\0\0D\0\0\0\x0a\0";

    // What the bench over a book prints of the sample.
    const BOOK_LINES: &[u8] = b"opening 32\ncode 850690\nseal 0001002c0000000c\n";

    fn input(base: u32, letter: u8, amount: u32) -> [u8; 52] {
        let mut bytes = *SAMPLE;
        bytes[13..17].copy_from_slice(&base.to_be_bytes());
        bytes[46] = letter;
        bytes[47..51].copy_from_slice(&amount.to_be_bytes());
        bytes
    }

    // A bench prints this, leaves what lies behind it, and refuses a buffer that is a byte too short.
    fn prints<F: Fn(&[u8], &mut [u8]) -> Result<usize, BufferFault>>(
        rt: &impl Abort,
        bench: F,
        bytes: &[u8],
        want: &[u8],
    ) -> Result<(), Fail>
        requires { F.IsAlwaysCallable bench }
    {
        let mut out = [0x55u8; 129];
        let n = want.len();
        assert!(rt; n >= 1 && n <= 128);
        assert_eq!(rt; bench(bytes, &mut out[0..n - 1]), Err(BufferFault::Short));
        assert_eq!(rt; out, [0x55; 129]);
        assert_eq!(rt; bench(bytes, &mut out[0..n]), Ok(n));
        assert_eq!(rt; &out[0..n], want);
        assert_eq!(rt; out[n], 0x55);
        assert_eq!(rt; bench(bytes, &mut out[0..128]), Ok(n));
        Ok(())
    }

    // Both benches print, each its own.
    fn both_print(rt: &impl Abort, bytes: &[u8], hour: &[u8], all: &[u8]) -> Result<(), Fail> {
        prints(rt, |bytes, out| bench_run::bench(bytes, out), bytes, hour)?;
        prints(rt, |bytes, out| bench_full::bench(bytes, out), bytes, all)
    }

    fn both_refuse(rt: &impl Abort, bytes: &[u8], want: &[u8]) -> Result<(), Fail> {
        both_print(rt, bytes, want, want)
    }

    #[test]
    fn amounts(rt: HostRuntime) -> Result<(), Fail> {
        let granted: [(u32, u8, u32, &[u8], &[u8]); 4] = [
            (8, b'D', 10, b"opening 32\n", BOOK_LINES),
            (
                8,
                b'D',
                1,
                b"opening 9\n",
                b"opening 9\ncode 850690\nseal 0001002c0000000c\n",
            ),
            (
                8,
                b'D',
                720,
                b"opening 728\n",
                b"opening 728\ncode 850690\nseal 0001002c0000000c\n",
            ),
            (
                8,
                b'N',
                1_000_000,
                b"opening 1000000\n",
                b"opening 1000000\ncode 622850\nseal 0001002c0000000c\n",
            ),
        ];
        for (base, letter, amount, hour, all) in granted {
            both_print(&rt, &input(base, letter, amount)[0..51], hour, all)?;
        }
        let refused: [(u32, u8, u32, &[u8]); 4] = [
            (8, b'D', 721, b"refused 17 order 38\n"),
            (8, b'N', 1_000_001, b"refused 17 order 38\n"),
            (1_000_001, b'E', 0, b"refused 14 timetable 4\n"),
            (1_000_000, b'E', 0, b"refused 16 order 37\n"),
        ];
        for (base, letter, amount, want) in refused {
            both_refuse(&rt, &input(base, letter, amount)[0..51], want)?;
        }
        let mut closed = *SAMPLE;
        closed[25..46].fill(0);
        both_refuse(&rt, &closed[0..51], b"refused 15 timetable 16\n")
    }

    #[test]
    fn lengths(rt: HostRuntime) -> Result<(), Fail> {
        let cases: [(usize, &[u8]); 7] = [
            (0, b"refused 24 bench 0\n"),
            (1, b"refused 12 cipher 0\n"),
            (8, b"refused 12 cipher 0\n"),
            (9, b"refused 18 sheet 0\n"),
            (45, b"refused 18 sheet 36\n"),
            (50, b"refused 18 sheet 41\n"),
            (52, b"refused 20 sheet 42\n"),
        ];
        let sample = *SAMPLE;
        for (n, want) in cases {
            assert!(rt; n <= 52);
            both_refuse(&rt, &sample[0..n], want)?;
        }
        Ok(())
    }

    #[test]
    fn marks_and_sizes(rt: HostRuntime) -> Result<(), Fail> {
        let cases: [(usize, u8, &[u8]); 6] = [
            (0, b'Q', b"refused 24 bench 0\n"),
            // the sheet then begins at byte 21, or at byte 33
            (0, b'1', b"refused 18 sheet 30\n"),
            (0, b'2', b"refused 18 sheet 18\n"),
            (10, 2, b"refused 19 sheet 0\n"),
            (12, 43, b"refused 19 sheet 0\n"),
            (9, 1, b"refused 19 sheet 0\n"),
        ];
        for (at, byte, want) in cases {
            let mut bytes = *SAMPLE;
            assert!(rt; at < 52);
            bytes[at] = byte;
            both_refuse(&rt, &bytes[0..51], want)?;
        }
        Ok(())
    }

    #[test]
    fn room(rt: HostRuntime) {
        let sample = *SAMPLE;
        let mut out = [0u8; 128];
        assert_eq!(rt; bench_run::bench(&sample[0..51], &mut out), Ok(11));
        assert_eq!(rt; bench_full::bench(&sample[0..51], &mut out), Ok(45));
    }
}
