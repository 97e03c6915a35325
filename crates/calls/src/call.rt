ghost use Rattle.std.specs.Prelude.{◌≡◌, ◌≤◌, length};

// A call on a book. The number behind a question is the length of the buffer offered.
#[derive(Clone, Copy)]
pub enum Call<'a> {
    // name, base hour, timetable, start register, as `set_up` takes them
    SetUp([u8; 8], u32, [u8; 21], &'a [u32]),
    // letter, amount
    Enter(char, u32),
    // number
    Undo(usize),
    Relieve,
    Opening,
    Register(usize),
    Code,
    Sheet(usize),
    Seal(usize),
}

// The bytes that a question wrote, no more than the longest sheet has. An array with a count, since the kit's vector of
// fixed room (`arrayvec`) is not `Copy`, which an answer is.
#[derive(Clone, Copy)]
pub struct Written {
    pub(crate) bytes: [u8; 357],
    pub(crate) count: usize,
    ghost long: { length bytes ≡ 357 },
    ghost few: { count ≤ 357 },
}

// What a call that is granted answers.
#[derive(Clone, Copy)]
pub enum Answer {
    Done,
    // number and opening hour
    Number(usize, u32),
    Hour(u32),
    Code(u32),
    Bytes(Written),
}
