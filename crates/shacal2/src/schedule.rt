// The schedule in a window of sixteen words, and the constants.
ghost use Rattle.std.specs.Prelude.{◌≡◌, ℕ, ◌≤◌, List, length, take};
ghost use Rattle.words.specs.Words.{add};
ghost use Rattle.words.specs.Steps.{next, Rolled};
ghost use Rattle.shacal2.specs.Shacal2.{small0 as smallZero, small1 as smallOne, fresh};

// The constants of the 64 steps.
pub(crate) const K: [u32; 64] = [
    0x428A_2F98,
    0x7137_4491,
    0xB5C0_FBCF,
    0xE9B5_DBA5,
    0x3956_C25B,
    0x59F1_11F1,
    0x923F_82A4,
    0xAB1C_5ED5,
    0xD807_AA98,
    0x1283_5B01,
    0x2431_85BE,
    0x550C_7DC3,
    0x72BE_5D74,
    0x80DE_B1FE,
    0x9BDC_06A7,
    0xC19B_F174,
    0xE49B_69C1,
    0xEFBE_4786,
    0x0FC1_9DC6,
    0x240C_A1CC,
    0x2DE9_2C6F,
    0x4A74_84AA,
    0x5CB0_A9DC,
    0x76F9_88DA,
    0x983E_5152,
    0xA831_C66D,
    0xB003_27C8,
    0xBF59_7FC7,
    0xC6E0_0BF3,
    0xD5A7_9147,
    0x06CA_6351,
    0x1429_2967,
    0x27B7_0A85,
    0x2E1B_2138,
    0x4D2C_6DFC,
    0x5338_0D13,
    0x650A_7354,
    0x766A_0ABB,
    0x81C2_C92E,
    0x9272_2C85,
    0xA2BF_E8A1,
    0xA81A_664B,
    0xC24B_8B70,
    0xC76C_51A3,
    0xD192_E819,
    0xD699_0624,
    0xF40E_3585,
    0x106A_A070,
    0x19A4_C116,
    0x1E37_6C08,
    0x2748_774C,
    0x34B0_BCB5,
    0x391C_0CB3,
    0x4ED8_AA4A,
    0x5B9C_CA4F,
    0x682E_6FF3,
    0x748F_82EE,
    0x78A5_636F,
    0x84C8_7814,
    0x8CC7_0208,
    0x90BE_FFFA,
    0xA450_6CEB,
    0xBEF9_A3F7,
    0xC671_78F2,
];

// Not one over const parameters, for the reason that stands at `big0`.
fn small0(x: u32) -> u32
    ensures { result ≡ smallZero x }
{
    x.rotate_right(7) ^ x.rotate_right(18) ^ (x >> 3)
}

fn small1(x: u32) -> u32
    ensures { result ≡ smallOne x }
{
    x.rotate_right(17) ^ x.rotate_right(19) ^ (x >> 10)
}

// A word of the schedule, from those that stand 16, 15, 7 and 2 before it.
fn word(w16: u32, w15: u32, w7: u32, w2: u32) -> u32
    ensures { result ≡ add (add (add w16 (smallZero w15)) w7) (smallOne w2) }
{
    w16.wrapping_add(small0(w15))
        .wrapping_add(w7)
        .wrapping_add(small1(w2))
}

// Renews the words from `from` up to `to`, of a window of which those before are renewed.
pub(crate) fn renew(r: &mut [u32; 16], from: usize, to: usize)
    requires rising { from ≤ to }
    requires within { to ≤ 16 }
    ensures rolled { (k : List ℕ) → length k ≡ 16 → Rolled fresh k r.old from → Rolled fresh k r.new to }
    ensures kept { take from r.new ≡ take from r.old }
{
    // by index: each word is made of four words of the same window, old and new
    for i in from..to {
        r[i] = word(r[i], r[(i + 1) % 16], r[(i + 9) % 16], r[(i + 14) % 16]);
    }
}

// The sixteen words of the schedule that follow the sixteen in `w`.
pub(crate) fn renewed(w: &[u32; 16]) -> [u32; 16]
    ensures { result ≡ next fresh w.now }
{
    let mut r = *w;
    renew(&mut r, 0, 8);
    renew(&mut r, 8, 16);
    r
}
