// Tests of the ciphers through their interface. The expected digests are those of sha1sum and sha256sum.
#![tactic(auto)]

#[cfg(test)]
mod tests {
    use cipher::{Cipher, Decrypt, Direction, Encrypt, decrypt_bytes, encrypt_bytes};
    use faults::{CipherFault, Refusal};
    use practice::Practice;
    use shacal1::Shacal1;
    use shacal2::Shacal2;
    use std::process::Abort;
    use words::add_words;

    // A padded message of one block, its SHA-1 with three words of zero behind it, and its SHA-256.
    struct Example {
        block: [u32; 16],
        sha1: [u32; 8],
        sha256: [u32; 8],
    }

    // "", "abc" and the one of the quick brown fox.
    static EXAMPLES: [Example; 3] = [
        Example {
            block: [
                0x8000_0000,
                0x0000_0000,
                0x0000_0000,
                0x0000_0000,
                0x0000_0000,
                0x0000_0000,
                0x0000_0000,
                0x0000_0000,
                0x0000_0000,
                0x0000_0000,
                0x0000_0000,
                0x0000_0000,
                0x0000_0000,
                0x0000_0000,
                0x0000_0000,
                0x0000_0000,
            ],
            sha1: [
                0xDA39_A3EE,
                0x5E6B_4B0D,
                0x3255_BFEF,
                0x9560_1890,
                0xAFD8_0709,
                0,
                0,
                0,
            ],
            sha256: [
                0xE3B0_C442,
                0x98FC_1C14,
                0x9AFB_F4C8,
                0x996F_B924,
                0x27AE_41E4,
                0x649B_934C,
                0xA495_991B,
                0x7852_B855,
            ],
        },
        Example {
            block: [
                0x6162_6380,
                0x0000_0000,
                0x0000_0000,
                0x0000_0000,
                0x0000_0000,
                0x0000_0000,
                0x0000_0000,
                0x0000_0000,
                0x0000_0000,
                0x0000_0000,
                0x0000_0000,
                0x0000_0000,
                0x0000_0000,
                0x0000_0000,
                0x0000_0000,
                0x0000_0018,
            ],
            sha1: [
                0xA999_3E36,
                0x4706_816A,
                0xBA3E_2571,
                0x7850_C26C,
                0x9CD0_D89D,
                0,
                0,
                0,
            ],
            sha256: [
                0xBA78_16BF,
                0x8F01_CFEA,
                0x4141_40DE,
                0x5DAE_2223,
                0xB003_61A3,
                0x9617_7A9C,
                0xB410_FF61,
                0xF200_15AD,
            ],
        },
        Example {
            block: [
                0x5468_6520,
                0x7175_6963,
                0x6B20_6272,
                0x6F77_6E20,
                0x666F_7820,
                0x6A75_6D70,
                0x7320_6F76,
                0x6572_2074,
                0x6865_206C,
                0x617A_7920,
                0x646F_6780,
                0x0000_0000,
                0x0000_0000,
                0x0000_0000,
                0x0000_0000,
                0x0000_0158,
            ],
            sha1: [
                0x2FD4_E1C6,
                0x7A2D_28FC,
                0xED84_9EE1,
                0xBB76_E739,
                0x1B93_EB12,
                0,
                0,
                0,
            ],
            sha256: [
                0xD7A8_FBB3,
                0x07D7_8094,
                0x69CA_9ABC,
                0xB008_2E4F,
                0x8D56_51E4,
                0x6D3C_DB76,
                0x2D02_D0BF,
                0x37C9_E592,
            ],
        },
    ];

    // Lengths of a key and of a block of SHACAL-1, and the answer.
    static LENGTHS: [(usize, usize, Result<(), CipherFault>); 9] = [
        (0, 20, Err(CipherFault::Key)),
        (15, 20, Err(CipherFault::Key)),
        (16, 20, Ok(())),
        (64, 20, Ok(())),
        (65, 20, Err(CipherFault::Key)),
        (16, 19, Err(CipherFault::Block)),
        (16, 21, Err(CipherFault::Block)),
        (64, 0, Err(CipherFault::Block)),
        (15, 19, Err(CipherFault::Key)),
    ];

    // The initial value encrypted under the block, and added: one step of the hash.
    fn compressed<C: Cipher>(cipher: &C, key: &[u32; 16]) -> [u32; 8] {
        let initial = cipher.initial();
        let mut sum = initial.eight();
        let _ = cipher.encrypt(key, &mut sum[..initial.count()]);
        let _ = add_words(&mut sum, &initial.eight());
        sum
    }

    // Numbers that look like any others.
    fn scattered(seed: u32) -> [u32; 16] {
        let mut words = [0; 16];
        let mut x = seed;
        for word in words.iter_mut() {
            x = x.wrapping_mul(1_664_525).wrapping_add(1_013_904_223);
            *word = x ^ x.rotate_left(13);
        }
        words
    }

    // Encrypts and decrypts, and then the other way round.
    fn both_ways<C: Cipher>(rt: &impl Abort, cipher: &C, key: &[u32; 16], block: &mut [u32]) {
        assert!(rt; cipher.encrypt(key, block).is_ok());
        assert!(rt; cipher.decrypt(key, block).is_ok());
        assert!(rt; cipher.decrypt(key, block).is_ok());
        assert!(rt; cipher.encrypt(key, block).is_ok());
    }

    // Encryption changes the block, decryption brings it back, and the words behind it stay.
    fn there_and_back<C: Cipher>(rt: &impl Abort, cipher: &C, seed: u32) {
        let key = scattered(seed);
        let words = scattered(!seed);
        let n = cipher.initial().count();
        let mut block = words;
        both_ways(rt, cipher, &key, &mut block[0..n]);
        assert_eq!(rt; block, words);
        let mut other = words;
        assert!(rt; cipher.encrypt(&key, &mut other[0..n]).is_ok());
        assert_ne!(rt; other, words);
    }

    fn all_nine(block: &[u8]) -> bool {
        block.iter().all(|x| *x == 9)
    }

    // A block of nines, encrypted and decrypted: where it is refused it stays as it was, byte for byte.
    fn tried(rt: &impl Abort, key: &[u8], block: &mut [u8], expected: Result<(), CipherFault>) {
        assert_eq!(rt; encrypt_bytes(&Shacal1, key, block), expected);
        assert_eq!(rt; all_nine(block), expected.is_err());
        assert_eq!(rt; decrypt_bytes(&Shacal1, key, block), expected);
        assert!(rt; all_nine(block));
    }

    #[test]
    fn numbers(rt: HostRuntime) {
        assert_eq!(rt; Refusal::from(CipherFault::Key).number, 11);
        assert_eq!(rt; Refusal::from(CipherFault::Block).number, 12);
    }

    // One step over each example gives the digest that is picked of it.
    fn compresses<C: Cipher, F: Fn(&Example) -> [u32; 8]>(rt: &impl Abort, cipher: &C, digest: F)
        requires { F.IsAlwaysCallable digest }
    {
        for example in &EXAMPLES {
            assert_eq!(rt; compressed(cipher, &example.block), digest(example));
        }
    }

    #[test]
    fn sha1(rt: HostRuntime) {
        compresses(&rt, &Shacal1, |example| example.sha1);
    }

    #[test]
    fn sha256(rt: HostRuntime) {
        compresses(&rt, &Shacal2, |example| example.sha256);
    }

    #[test]
    fn back_again(rt: HostRuntime) {
        for seed in [0, 1, 2, 77, 0x8000_0000, 0xFFFF_FFFF] {
            there_and_back(&rt, &Practice, seed);
            there_and_back(&rt, &Shacal1, seed);
            there_and_back(&rt, &Shacal2, seed);
        }
    }

    #[test]
    fn lengths(rt: HostRuntime) {
        let key = [7; 65];
        for (k, b, expected) in &LENGTHS {
            assert!(rt; *k <= 65 && *b <= 21);
            let mut block = [9; 21];
            tried(&rt, &key[0..*k], &mut block[0..*b], *expected);
        }
    }

    // A key of 16 bytes is the key that is filled up behind by hand.
    #[test]
    fn filled_behind(rt: HostRuntime) {
        let mut long = [0; 64];
        long[0..16].copy_from_slice(&[0xA5; 16]);
        let mut first = [1; 32];
        let mut second = [1; 32];
        assert!(rt; encrypt_bytes(&Shacal2, &[0xA5; 16], &mut first).is_ok());
        assert!(rt; encrypt_bytes(&Shacal2, &long, &mut second).is_ok());
        assert_eq!(rt; first, second);
        assert_ne!(rt; first, [1; 32]);
    }

    // The practice cipher by hand: the most significant byte comes first, and the sum wraps.
    #[test]
    fn by_hand(rt: HostRuntime) {
        let key = [0, 0, 0, 1, 0xFF, 0xFF, 0xFF, 0xFF, 9, 9, 9, 9, 9, 9, 9, 9];
        let mut block = [0, 0, 0, 0xFF, 0, 0, 0, 3];
        assert!(rt; encrypt_bytes(&Practice, &key, &mut block).is_ok());
        assert_eq!(rt; block, [0, 0, 1, 0, 0, 0, 0, 2]);
        assert!(rt; decrypt_bytes(&Practice, &key, &mut block).is_ok());
        assert_eq!(rt; block, [0, 0, 0, 0xFF, 0, 0, 0, 3]);
    }

    // Each direction does what the cipher's own method does.
    #[test]
    fn directions(rt: HostRuntime) {
        let key = scattered(5);
        let mut block = [7, 9];
        assert!(rt; Encrypt::turn(&Practice, &key, &mut block).is_ok());
        let mut other = [7, 9];
        assert!(rt; Practice.encrypt(&key, &mut other).is_ok());
        assert_eq!(rt; block, other);
        assert!(rt; Decrypt::turn(&Practice, &key, &mut block).is_ok());
        assert_eq!(rt; block, [7, 9]);
    }

    // A block of words of another size is refused and stays.
    #[test]
    fn other_widths(rt: HostRuntime) {
        let refused = Err(CipherFault::Block);
        let mut block = [1, 2, 3, 4, 5, 6];
        assert_eq!(rt; Shacal1.encrypt(&[0; 16], &mut block), refused);
        assert_eq!(rt; Shacal1.decrypt(&[0; 16], &mut block[0..4]), refused);
        assert_eq!(rt; Shacal2.encrypt(&[0; 16], &mut block), refused);
        assert_eq!(rt; Practice.decrypt(&[0; 16], &mut block[0..1]), refused);
        assert_eq!(rt; block, [1, 2, 3, 4, 5, 6]);
    }
}
