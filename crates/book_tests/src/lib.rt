// Tests of the book through its public calls. The expected values come from tests/model.py, which keeps the start
// register and never decrypts. The practice cipher commutes and passes over most of a key, so that it hides a wrong
// sequence: what is told of a register is told of both SHACALs too.
#![tactic(auto)]

#[cfg(test)]
mod tests {
    use book::Book;
    use calls::{Answer, Call, replay};
    use cipher::Cipher;
    use compare::{Verdict, compare};
    use faults::{
        BenchFault, BookFault, BufferFault, CipherFault, OrderFault, Refusal, SheetFault,
        TimetableFault,
    };
    use loading::load;
    use practice::Practice;
    use shacal1::Shacal1;
    use shacal2::Shacal2;
    use std::alloc::Global;
    use std::process::Abort;
    use std::test::Fail;

    const NAME: [u8; 8] = *b"SAFE0001";

    const OFFICE: [u8; 21] = *b"\0\xff\x80\0\xff\x80\0\xff\x80\0\xff\x80\0\xff\x80\0\0\0\0\0\0";

    // A cipher of fewer words has the front.
    const START: [u32; 8] = [
        0x01234567, 0x02468ace, 0x0369d035, 0x048d159c, 0x05b05b03, 0x06d3a06a, 0x07f6e5d1,
        0x091a2b38,
    ];

    const WORDS: BookFault = BookFault::Cipher(CipherFault::Block);

    const BASE: BookFault = BookFault::Timetable(TimetableFault::Base(0));

    const CLOSED: BookFault = BookFault::Timetable(TimetableFault::Closed(0));

    const LETTER: BookFault = BookFault::Order(OrderFault::Letter(0));

    const AMOUNT: BookFault = BookFault::Order(OrderFault::Amount(0));

    const SHORT: BookFault = BookFault::Buffer(BufferFault::Short);

    const REGISTER: BenchFault = BenchFault::Cipher(CipherFault::Block);

    // A sheet of so many bytes, which are too few.
    fn too_short(given: usize) -> BenchFault {
        BenchFault::Sheet(SheetFault::Short(given))
    }

    // The number that is told of each.
    const NUMBERS: [(BookFault, u8); 11] = [
        (WORDS, 12),
        (SHORT, 13),
        (BASE, 14),
        (CLOSED, 15),
        (LETTER, 16),
        (AMOUNT, 17),
        (BookFault::Begun, 32),
        (BookFault::Full, 33),
        (BookFault::Absent, 34),
        (BookFault::Undone, 35),
        (BookFault::NoDelay, 36),
    ];

    #[test]
    fn numbers(rt: HostRuntime) {
        for (fault, number) in NUMBERS {
            assert_eq!(rt; Refusal::from(fault).number, number);
        }
        assert_eq!(rt; Refusal::from(REGISTER).number, 12);
        for given in [20, 51] {
            assert_eq!(rt; Refusal::from(too_short(given)).number, 18);
        }
    }

    // Buffers, longer than any answer.
    const NARROW: [u8; 33] = [0x55; 33];

    const WIDE: [u8; 358] = [0x55; 358];

    // A book set up with the start register.
    fn ready<C: Cipher + Drop>(rt: &impl Abort, cipher: C) -> Result<Book<C>, Fail> {
        let mut book = Book::new(cipher);
        let width = book.cipher().width();
        assert!(rt; width <= 8);
        book.set_up(NAME, 8, OFFICE, &START[..width])?;
        Ok(book)
    }

    // A call as data, so that tables hold it. It is made by the book's own methods: `calls::apply` has a test of its own.
    #[derive(Clone, Copy)]
    enum Step {
        Enter(char, u32),
        Undo(usize),
        Relieve,
    }

    // An order's number, where it is told, and the opening hour.
    type Told = (Option<usize>, u32);

    fn take_step<C: Cipher>(book: &mut Book<C>, step: Step) -> Result<Told, BookFault> {
        match step {
            Step::Enter(letter, amount) => {
                let (number, hour) = book.enter(letter, amount)?;
                Ok((Some(number), hour))
            }
            Step::Undo(number) => Ok((None, book.undo(number)?)),
            Step::Relieve => {
                let (number, hour) = book.relieve()?;
                Ok((Some(number), hour))
            }
        }
    }

    fn all_granted<C: Cipher>(book: &mut Book<C>, steps: &[Step]) -> Result<(), Fail> {
        for s in steps {
            take_step(book, *s)?;
        }
        Ok(())
    }

    #[derive(Clone, Copy, PartialEq)]
    struct Five {
        opening: u32,
        code: u32,
        register: [u8; 33],
        sheet: [u8; 358],
        seal: [u8; 33],
    }

    // What a book shows, with bytes behind it that are to be left.
    fn shown<C: Cipher>(book: &Book<C>) -> Result<Five, Fail> {
        let mut five = Five {
            opening: book.opening(),
            code: book.code(),
            register: NARROW,
            sheet: WIDE,
            seal: NARROW,
        };
        book.register(&mut five.register)?;
        book.sheet(&mut five.sheet)?;
        book.seal(&mut five.seal)?;
        Ok(five)
    }

    // What a question writes.
    fn writes<F: Fn(&mut [u8]) -> Result<usize, BufferFault>>(
        rt: &impl Abort,
        question: F,
        want: &[u8],
    ) -> Result<(), Fail>
        requires { F.IsAlwaysCallable question }
    {
        let mut out = WIDE;
        let n = question(&mut out)?;
        assert!(rt; n <= 358);
        assert_eq!(rt; &out[..n], want);
        Ok(())
    }

    fn shows<C: Cipher>(
        rt: &impl Abort,
        book: &Book<C>,
        opening: u32,
        register: &[u8],
        sheet: &[u8],
        seal: &[u8],
    ) -> Result<(), Fail> {
        assert_eq!(rt; book.opening(), opening);
        writes(rt, |out| book.register(out), register)?;
        writes(rt, |out| book.sheet(out), sheet)?;
        writes(rt, |out| book.seal(out), seal)
    }

    // A call that is refused, with the five as they stood.
    fn refuses_call<C: Cipher, T: Drop, F: FnOnce(&mut Book<C>) -> Result<T, BookFault>>(
        rt: &impl Abort,
        book: &mut Book<C>,
        call: F,
        fault: BookFault,
    ) -> Result<(), Fail>
        requires { F.IsAlwaysCallable call }
    {
        let before = shown(book)?;
        assert_eq!(rt; call(book).err(), Some(fault));
        assert!(rt; shown(book)? == before);
        Ok(())
    }

    fn refuses<C: Cipher>(
        rt: &impl Abort,
        book: &mut Book<C>,
        step: Step,
        fault: BookFault,
    ) -> Result<(), Fail> {
        refuses_call(rt, book, |book| take_step(book, step), fault)
    }

    fn refuses_set_up<C: Cipher>(
        rt: &impl Abort,
        book: &mut Book<C>,
        base: u32,
        timetable: [u8; 21],
        start: &[u32],
        fault: BookFault,
    ) -> Result<(), Fail> {
        refuses_call(
            rt,
            book,
            |book| book.set_up(*b"OTHER...", base, timetable, start),
            fault,
        )
    }

    const FOUR: &[u8; 57] =
        b"\0\x04\0\x39\0\0\0\x08SAFE0001\0\xff\x80\0\xff\x80\0\xff\x80\0\xff\x80\0\xff\x80\0\0\0\0\0\0DDDN\0\0\0\x64\0\0\0\x0a\0\0\0\x64\0\0\0\x68";

    const THREE: &[u8; 52] =
        b"\0\x03\0\x34\0\0\0\x08SAFE0001\0\xff\x80\0\xff\x80\0\xff\x80\0\xff\x80\0\xff\x80\0\0\0\0\0\0DND\0\0\0\x64\0\0\0\x68\0\0\x02\xd0";

    // Unlike orders, an undo in the middle, two equal delays of which the later is relieved, an order behind undone ones,
    // and one more undo in the middle. The codes after each call; register and seal after the first undo and at the end.
    const STEPS: [(Step, Told); 9] = [
        (Step::Enter('D', 100), (Some(1), 108)),
        (Step::Enter('N', 120), (Some(2), 176)),
        (Step::Enter('D', 10), (Some(3), 200)),
        (Step::Enter('D', 100), (Some(4), 344)),
        (Step::Enter('N', 104), (Some(5), 344)),
        (Step::Undo(2), (None, 276)),
        (Step::Relieve, (Some(4), 176)),
        (Step::Enter('D', 720), (Some(6), 896)),
        (Step::Undo(3), (None, 848)),
    ];

    fn take_steps<C: Cipher>(
        rt: &impl Abort,
        book: &mut Book<C>,
        steps: &[(Step, Told)],
        codes: &[u32],
    ) {
        for ((step, told), code) in steps.iter().zip(codes) {
            assert_eq!(rt; take_step(book, *step), Ok(*told));
            assert_eq!(rt; book.code(), *code);
        }
    }

    fn follow<C: Cipher + Drop>(
        rt: &impl Abort,
        cipher: C,
        codes: [u32; 9],
        middle_register: &[u8],
        middle_seal: &[u8],
        end_register: &[u8],
        end_seal: &[u8],
    ) -> Result<(), Fail> {
        let mut book = ready(rt, cipher)?;
        take_steps(rt, &mut book, &STEPS[..6], &codes[..6]);
        shows(rt, &book, 276, middle_register, FOUR, middle_seal)?;
        take_steps(rt, &mut book, &STEPS[6..], &codes[6..]);
        shows(rt, &book, 848, end_register, THREE, end_seal)
    }

    #[test]
    fn runs(rt: HostRuntime) -> Result<(), Fail> {
        follow(
            &rt,
            Shacal1,
            [
                159408, 941599, 101065, 709880, 354419, 501488, 765852, 538163, 920480,
            ],
            b"\xa4\xed\x4c\x83\xdb\x15\x58\x0b\x89\x7a\x00\x82\xec\x2b\x2c\xe7\x46\x30\x80\xd4",
            b"\x92\xf3\xe6\xb2\xc4\x1c\xad\x83\x4c\x17\x24\xac\xd2\xb1\x5e\x87\x71\x18\xac\xdd",
            b"\x9a\xbb\x16\x2d\xfc\x75\x3d\x0d\x2f\xa6\x8f\xd5\xb3\xbd\x2e\xca\xa4\x51\x2f\xe4",
            b"\x2b\xb0\x04\x06\x50\xdf\xfd\xc5\x4f\x2d\xb2\x76\x00\x65\xb0\x53\xa3\x98\x78\x41",
        )?;
        follow(
            &rt,
            Shacal2,
            [
                615829, 233060, 542351, 502085, 226176, 359808, 61695, 914334, 490188,
            ],
            b"\x07\xe3\x65\x08\x55\x78\xea\x95\x03\x27\x8e\x40\x99\xbd\x77\xe3\x24\xbb\xb2\xc4\x27\x31\x0b\x73\x09\xe6\xb6\x72\x8c\x96\xb9\x5f",
            b"\x19\x28\x16\x2f\x0a\x44\xb7\x8a\xaa\x42\x72\xb0\x36\x7c\xad\xfc\xcb\x29\x3e\x25\x67\x23\x6e\xc8\x2c\xb3\x9a\x94\xe3\x0f\x24\x48",
            b"\x23\x37\x61\xf6\x66\x5e\x25\x5c\x2b\xe9\xba\x03\x91\x61\x0e\x91\xe0\xc2\xb9\x7e\xc4\x2c\xbe\x36\x3d\xd1\x1c\x75\x97\x06\xea\x83",
            b"\x16\x8b\xd2\xeb\x46\x44\x84\x30\x8e\xa5\xc4\x6d\xa6\xdc\xeb\xf3\xe1\xec\xc5\xf3\xf8\xe0\xc1\x3c\xb2\x32\x01\xa4\x02\x95\x83\x66",
        )?;
        follow(
            &rt,
            Practice,
            [
                939433, 562281, 412969, 296361, 919209, 296361, 412969, 296361, 412969,
            ],
            b"\x1b\x23\x45\x67\x02\x46\x8c\x08",
            b"\x00\x08\x00\x76\x00\x00\x00\x18",
            b"\xd7\x23\x45\x67\x02\x46\x8e\x6a",
            b"\x00\x03\x00\x36\x00\x00\x00\x0c",
        )
    }

    // Every refusal of a book that has room, in the sequence of the checks: of grounds that hold together the first is told.
    const REFUSED: [(Step, BookFault); 7] = [
        (Step::Enter('E', 0), LETTER),
        (Step::Enter('D', 0), AMOUNT),
        (Step::Enter('D', 721), AMOUNT),
        (Step::Enter('N', 1_000_001), AMOUNT),
        (Step::Undo(0), BookFault::Absent),
        (Step::Undo(4), BookFault::Absent),
        (Step::Undo(2), BookFault::Undone),
    ];

    fn steps_refused<C: Cipher>(rt: &impl Abort, book: &mut Book<C>) -> Result<(), Fail> {
        for (step, fault) in REFUSED {
            refuses(rt, book, step, fault)?;
        }
        // with no delay in force
        assert_eq!(rt; take_step(book, Step::Relieve), Ok((Some(1), 32)));
        assert_eq!(rt; take_step(book, Step::Relieve), Ok((Some(3), 8)));
        assert_eq!(rt; take_step(book, Step::Enter('N', 120)), Ok((Some(4), 176)));
        refuses(rt, book, Step::Relieve, BookFault::NoDelay)
    }

    fn set_ups_refused<C: Cipher>(rt: &impl Abort, book: &mut Book<C>) -> Result<(), Fail> {
        let width = book.cipher().width();
        assert!(rt; width >= 1 && width <= 8);
        refuses_set_up(rt, book, 1_000_001, [0; 21], &START[..width - 1], WORDS)?;
        refuses_set_up(rt, book, 1_000_001, [0; 21], &START[..width], BASE)?;
        refuses_set_up(rt, book, 1_000_000, [0; 21], &START[..width], CLOSED)?;
        refuses_set_up(
            rt,
            book,
            1_000_000,
            OFFICE,
            &START[..width],
            BookFault::Begun,
        )
    }

    // A buffer that is a byte too short is left as it was, and one that is just long enough is filled.
    fn wants_room<F: Fn(&mut [u8]) -> Result<usize, BufferFault>>(
        rt: &impl Abort,
        question: F,
        size: usize,
    )
        requires { F.IsAlwaysCallable question }
    {
        assert!(rt; size >= 1 && size <= 358);
        let mut short = WIDE;
        assert_eq!(rt; question(&mut short[..size - 1]), Err(BufferFault::Short));
        assert_eq!(rt; short, WIDE);
        let mut out = WIDE;
        assert_eq!(rt; question(&mut out[..size]), Ok(size));
    }

    fn all_refused<C: Cipher + Drop>(rt: &impl Abort, cipher: C, size: usize) -> Result<(), Fail> {
        let mut book = ready(rt, cipher)?;
        let steps = [
            Step::Enter('D', 100),
            Step::Enter('N', 120),
            Step::Enter('D', 10),
            Step::Undo(2),
        ];
        all_granted(&mut book, &steps)?;
        set_ups_refused(rt, &mut book)?;
        wants_room(rt, |out| book.sheet(out), 47);
        wants_room(rt, |out| book.register(out), size);
        wants_room(rt, |out| book.seal(out), size);
        steps_refused(rt, &mut book)
    }

    #[test]
    fn refusals(rt: HostRuntime) -> Result<(), Fail> {
        all_refused(&rt, Shacal1, 20)?;
        all_refused(&rt, Shacal2, 32)?;
        all_refused(&rt, Practice, 8)
    }

    // D 1, D 2 and so on to D 64. Numbers are not given anew: an undone order makes no room.
    #[test]
    fn full(rt: HostRuntime) -> Result<(), Fail> {
        let mut book = ready(&rt, Shacal2)?;
        for amount in 1..64 {
            book.enter('D', amount)?;
        }
        assert_eq!(rt;
            take_step(&mut book, Step::Enter('D', 64)),
            Ok((Some(64), 3104))
        );
        assert_eq!(rt; book.code(), 526457);
        writes(
            &rt,
            |out| book.register(out),
            b"\x02\xc2\x1d\x2b\x1f\xed\x6d\x34\x1f\x83\x90\xa8\x24\xf6\x4f\xa8\x8e\x0c\x76\xa8\xf7\xa5\x7e\xcd\xee\x1f\x30\x2b\xa4\x9c\xaa\xa3",
        )?;
        writes(
            &rt,
            |out| book.seal(out),
            b"\x45\x57\x83\x14\xc9\xea\xeb\xda\x02\x0d\x74\x31\xe1\x31\x29\xc5\x6a\x9c\x51\x0e\xad\x36\x74\x1b\xc8\x6b\x25\x36\x18\x5d\xac\xcc",
        )?;
        refuses(&rt, &mut book, Step::Enter('D', 1), BookFault::Full)?;
        refuses(&rt, &mut book, Step::Enter('D', 721), AMOUNT)?;
        book.undo(64)?;
        refuses(&rt, &mut book, Step::Enter('D', 1), BookFault::Full)
    }

    // Before the first order the last set-up counts, whole; after it none is granted, even where that order was undone.
    #[test]
    fn set_up_again(rt: HostRuntime) -> Result<(), Fail> {
        let mut book = Book::new(Shacal1);
        assert_eq!(rt; book.code(), 869822);
        book.set_up(*b"OTHER...", 1000, [0xff; 21], &START[3..])?;
        book.set_up(NAME, 8, OFFICE, &START[..5])?;
        assert!(rt; shown(&book)? == shown(&ready(&rt, Shacal1)?)?);
        assert_eq!(rt; book.code(), 247820);
        book.enter('D', 100)?;
        refuses_set_up(&rt, &mut book, 8, OFFICE, &START[..5], BookFault::Begun)?;
        book.undo(1)?;
        assert_eq!(rt; book.code(), 247820);
        refuses_set_up(&rt, &mut book, 8, OFFICE, &START[3..], BookFault::Begun)
    }

    // The same orders in force by different ways; then one undone and entered again, so that the sequence alone differs.
    fn two_ways<C: Cipher + Drop, D: Cipher + Drop>(
        rt: &impl Abort,
        one: C,
        other: D,
        code: u32,
        unlike: Verdict,
    ) -> Result<(), Fail> {
        let mut a = ready(rt, one)?;
        let direct = [
            Step::Enter('D', 100),
            Step::Enter('N', 120),
            Step::Enter('D', 10),
        ];
        all_granted(&mut a, &direct)?;
        let mut b = ready(rt, other)?;
        let winding = [
            Step::Enter('N', 5),
            Step::Enter('D', 100),
            Step::Enter('D', 720),
            Step::Enter('N', 120),
            Step::Undo(1),
            Step::Enter('D', 10),
            Step::Relieve,
        ];
        all_granted(&mut b, &winding)?;
        assert!(rt; shown(&a)? == shown(&b)?);
        assert_eq!(rt; compare(&a, &b), Verdict::SameSheet);
        assert_eq!(rt; take_step(&mut a, Step::Undo(1)), Ok((None, 200)));
        assert_eq!(rt;
            take_step(&mut a, Step::Enter('D', 100)),
            Ok((Some(4), 344))
        );
        assert_eq!(rt; a.code(), code);
        assert!(rt; shown(&a)? != shown(&b)?);
        assert_eq!(rt; compare(&a, &b), unlike);
        Ok(())
    }

    #[test]
    fn two_books(rt: HostRuntime) -> Result<(), Fail> {
        two_ways(&rt, Shacal1, Shacal1, 463616, Verdict::SealsDiffer)?;
        two_ways(&rt, Shacal2, Shacal2, 595296, Verdict::SealsDiffer)?;
        // a digest over the practice cipher passes over letters and amounts
        two_ways(&rt, Practice, Practice, 412969, Verdict::Collision(0, 0))?;
        assert_eq!(rt;
            compare(&ready(&rt, Shacal1)?, &ready(&rt, Shacal2)?),
            Verdict::SealsDiffer
        );
        Ok(())
    }

    // Sheets of 137 bytes that differ in the second of three blocks.
    #[test]
    fn collision_behind(rt: HostRuntime) -> Result<(), Fail> {
        let mut a = ready(&rt, Practice)?;
        let mut b = ready(&rt, Practice)?;
        for i in 0..20 {
            a.enter('D', 1)?;
            b.enter('D', if i == 5 { 2 } else { 1 })?;
        }
        assert_eq!(rt; compare(&a, &b), Verdict::Collision(1, 1));
        Ok(())
    }

    // An answer, with the count of its bytes in place of the bytes.
    #[derive(Clone, Copy, PartialEq, Debug)]
    enum Plain {
        Done,
        Number(usize, u32),
        Hour(u32),
        Code(u32),
        Count(usize),
    }

    impl From<Answer> for Plain {
        fn from(answer: Answer) -> Plain {
            match answer {
                Answer::Done => Plain::Done,
                Answer::Number(number, hour) => Plain::Number(number, hour),
                Answer::Hour(hour) => Plain::Hour(hour),
                Answer::Code(code) => Plain::Code(code),
                Answer::Bytes(bytes) => Plain::Count(bytes.as_slice().len()),
            }
        }
    }

    const ANSWERS: [Result<Plain, BookFault>; 14] = [
        Err(AMOUNT),
        Ok(Plain::Done),
        Ok(Plain::Number(1, 108)),
        Ok(Plain::Number(2, 176)),
        Ok(Plain::Number(3, 200)),
        Ok(Plain::Number(4, 344)),
        Ok(Plain::Number(5, 344)),
        Ok(Plain::Hour(276)),
        Err(BookFault::Undone),
        Ok(Plain::Code(501488)),
        Ok(Plain::Number(4, 176)),
        Err(SHORT),
        Ok(Plain::Count(52)),
        Ok(Plain::Count(20)),
    ];

    fn check_replay(rt: &impl Abort, heap: Global, calls: &[Call<'_>]) -> Result<(), Fail> {
        let (book, answers) = replay(Shacal1, heap, calls)?;
        assert_eq!(rt; answers.len(), 14);
        for (answer, want) in answers.iter().zip(&ANSWERS) {
            assert_eq!(rt; answer.map(Plain::from), *want);
        }
        assert_eq!(rt; book.opening(), 176);
        assert_eq!(rt; book.code(), 765852);
        Ok(())
    }

    #[test]
    fn replayed(rt: HostRuntime) -> Result<(), Fail> {
        let calls = [
            Call::Enter('D', 0),
            Call::SetUp(NAME, 8, OFFICE, &START[..5]),
            Call::Enter('D', 100),
            Call::Enter('N', 120),
            Call::Enter('D', 10),
            Call::Enter('D', 100),
            Call::Enter('N', 104),
            Call::Undo(2),
            Call::Undo(2),
            Call::Code,
            Call::Relieve,
            Call::Sheet(51),
            Call::Sheet(52),
            Call::Register(400),
        ];
        check_replay(&rt, rt.alloc(), &calls)
    }

    const START_BYTES: &[u8; 20] =
        b"\x01\x23\x45\x67\x02\x46\x8a\xce\x03\x69\xd0\x35\x04\x8d\x15\x9c\x05\xb0\x5b\x03";

    fn load_refused(rt: &impl Abort, register: &[u8], sheet: &[u8], fault: BenchFault) {
        assert_eq!(rt; load(Shacal1, register, sheet).err(), Some(fault));
    }

    // The sheet at the end of the runs, and its first ground of refusal.
    #[test]
    fn loaded(rt: HostRuntime) -> Result<(), Fail> {
        let book = load(Shacal1, START_BYTES, THREE)?;
        assert_eq!(rt; book.opening(), 848);
        assert_eq!(rt; book.code(), 920480);
        writes(&rt, |out| book.sheet(out), THREE)?;
        load_refused(&rt, &START_BYTES[..19], &THREE[..51], REGISTER);
        load_refused(&rt, START_BYTES, &THREE[..51], too_short(51));
        load_refused(&rt, START_BYTES, START_BYTES, too_short(20));
        Ok(())
    }
}
