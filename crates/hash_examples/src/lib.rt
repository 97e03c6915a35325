// Tests of the hash through its public calls: the examples of FIPS 180-4 for SHA-1 and SHA-256, added in parts of
// several sizes, and in one call. The expected texts are the standard's, as sha1sum and sha256sum print them.
#![tactic(auto)]

#[cfg(test)]
mod tests {
    use cipher::Cipher;
    use digest_text::line;
    use faults::MessageFault;
    use hash::Message;
    use sha::{sha1, sha256};
    use shacal1::Shacal1;
    use shacal2::Shacal2;
    use std::alloc::Global;
    use std::process::Abort;
    use std::test::Fail;
    use words::Block;

    // A message is `unit`, so many times.
    #[derive(Clone, Copy)]
    struct Example {
        unit: &'static [u8],
        times: usize,
        sha1: &'static str,
        sha256: &'static str,
    }

    static EXAMPLES: [Example; 4] = [
        Example {
            unit: b"abc",
            times: 1,
            sha1: "a9993e364706816aba3e25717850c26c9cd0d89d\n",
            sha256: "ba7816bf8f01cfea414140de5dae2223b00361a396177a9cb410ff61f20015ad\n",
        },
        Example {
            unit: b"abcdbcdecdefdefgefghfghighijhijkijkljklmklmnlmnomnopnopq",
            times: 1,
            sha1: "84983e441c3bd26ebaae4aa1f95129e5e54670f1\n",
            sha256: "248d6a61d20638b8e5c026930c3e6039a33ce45964ff2167f6ecedd419db06c1\n",
        },
        Example {
            unit: b"abcdefghbcdefghicdefghijdefghijkefghijklfghijklmghijklmnhijklmnoijklmnopjklmnopqklmnopqrlmnopqrsmnopqrstnopqrstu",
            times: 1,
            sha1: "a49b2446a02c645bf419f995b67091253a04a259\n",
            sha256: "cf5b16a778af8380036ce59e7b0492370b249b11e8f07a51afac45037afee9d1\n",
        },
        // one million letters a
        Example {
            unit: b"aaaaaaaaaaaaaaaaaaaaaaaaaaaaaaaaaaaaaaaaaaaaaaaaaaaaaaaaaaaaaaaaaaaaaaaaaaaaaaaaaaaaaaaaaaaaaaaaaaaa",
            times: 10_000,
            sha1: "34aa973cd4c4daa4f61eeb2bdbad27316534016f\n",
            sha256: "cdc76e5c9914fb9281a1c7e284d73e67f1809a48a497200e046d39ccc7112cd0\n",
        },
    ];

    // Adds `unit` in parts of `size` bytes, of at least one.
    fn add_parts<C: Cipher>(
        message: &mut Message<'_, C>,
        unit: &[u8],
        size: usize,
    ) -> Result<(), MessageFault> {
        for part in unit.chunks(size.max(1)) {
            message.add(part)?;
        }
        Ok(())
    }

    fn add_all<C: Cipher>(
        message: &mut Message<'_, C>,
        case: &Example,
        size: usize,
    ) -> Result<(), MessageFault> {
        for _ in 0..case.times {
            add_parts(message, case.unit, size)?;
        }
        Ok(())
    }

    // As `hash::digest_of` and the program `digest` do: a call of the library for all three would take a closure, and so
    // require that it may be called.
    fn digest_in_parts<C: Cipher>(
        cipher: &C,
        case: &Example,
        size: usize,
    ) -> Result<Block, MessageFault> {
        let mut message = Message::new(cipher);
        let added = add_all(&mut message, case, size);
        let digest = message.finish();
        added?;
        Ok(digest)
    }

    fn check(rt: &impl Abort, heap: Global, digest: &Block, expected: &str) -> Result<(), Fail> {
        let text = line(heap, digest)?;
        assert_eq!(rt; text.as_str(), expected);
        Ok(())
    }

    fn check_in_parts(rt: &impl Abort, heap: Global, case: &Example) -> Result<(), Fail> {
        // the last adds each unit whole
        for size in [1, 3, 55, 56, 63, 64, 65, 112] {
            check(rt, heap, &digest_in_parts(&Shacal1, case, size)?, case.sha1)?;
            check(
                rt,
                heap,
                &digest_in_parts(&Shacal2, case, size)?,
                case.sha256,
            )?;
        }
        Ok(())
    }

    #[test]
    fn in_parts(rt: HostRuntime) -> Result<(), Fail> {
        for case in EXAMPLES.iter() {
            check_in_parts(&rt, rt.alloc(), case)?;
        }
        Ok(())
    }

    #[test]
    fn in_one_call(rt: HostRuntime) -> Result<(), Fail> {
        for case in EXAMPLES.iter() {
            if case.times == 1 {
                let parts: [&[u8]; 3] = [b"", case.unit, b""];
                check(&rt, rt.alloc(), &sha1(&parts)?, case.sha1)?;
                check(&rt, rt.alloc(), &sha256(&parts)?, case.sha256)?;
            }
        }
        Ok(())
    }
}
