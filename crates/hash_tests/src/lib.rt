// Tests of the hash through its public calls. The expected digests are the examples of FIPS 180-4.
#![tactic(auto)]

#[cfg(test)]
mod tests {
    use cipher::Cipher;
    use faults::MessageFault;
    use hash::{Chain, Message, digest_of};
    use shacal1::Shacal1;
    use shacal2::Shacal2;
    use std::process::Abort;
    use std::test::Fail;

    const LONG: &[u8; 56] = b"abcdbcdecdefdefgefghfghighijhijkijkljklmklmnlmnomnopnopq";

    const SHA1: [u32; 8] = [
        0x84983E44, 0x1C3BD26E, 0xBAAE4AA1, 0xF95129E5, 0xE54670F1, 0, 0, 0,
    ];

    const SHA256: [u32; 8] = [
        0x248D6A61, 0xD20638B8, 0xE5C02693, 0x0C3E6039, 0xA33CE459, 0x64FF2167, 0xF6ECEDD4,
        0x19DB06C1,
    ];

    // The example in two parts, cut at several places.
    fn check_in_parts<C: Cipher>(
        rt: &impl Abort,
        cipher: &C,
        expected: &[u32; 8],
    ) -> Result<(), Fail> {
        let long = *LONG;
        for cut in [0, 1, 3, 55, 56] {
            assert!(rt; cut <= 56);
            let digest = digest_of(cipher, &[&long[0..cut], &long[cut..56]])?;
            assert_eq!(rt; digest.eight(), *expected);
        }
        Ok(())
    }

    #[test]
    fn in_parts(rt: HostRuntime) -> Result<(), Fail> {
        check_in_parts(&rt, &Shacal1, &SHA1)?;
        check_in_parts(&rt, &Shacal2, &SHA256)
    }

    fn add_times<C: Cipher>(
        message: &mut Message<'_, C>,
        part: &[u8],
        times: usize,
    ) -> Result<(), MessageFault> {
        for _ in 0..times {
            message.add(part)?;
        }
        Ok(())
    }

    // A million letters a, of a message that is begun, added to and finished here, as `hash::digest_of` does it.
    #[test]
    fn million(rt: HostRuntime) -> Result<(), Fail> {
        let mut message = Message::new(&Shacal1);
        let added = add_times(&mut message, &[b'a'; 1000], 1000);
        let digest = message.finish();
        added?;
        assert_eq!(rt;
            digest.eight(),
            [
                0x34AA973C, 0xD4C4DAA4, 0xF61EEB2B, 0xDBAD2731, 0x6534016F, 0, 0, 0,
            ]
        );
        Ok(())
    }

    // The one block of "abc", padded by hand.
    #[test]
    fn one_step(rt: HostRuntime) {
        let mut chain = Chain::new(&Shacal1);
        chain.step(&[0x61626380, 0, 0, 0, 0, 0, 0, 0, 0, 0, 0, 0, 0, 0, 0, 24]);
        let expected = [0xA9993E36, 0x4706816A, 0xBA3E2571, 0x7850C26C, 0x9CD0D89D];
        assert_eq!(rt; chain.words(), expected.as_slice());
    }
}
