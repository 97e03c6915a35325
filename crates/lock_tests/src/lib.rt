// Tests of the lower half of the lock, as tables: orders, timetables, sheets.
#![tactic(auto)]

#[cfg(test)]
mod tests {
    use faults::{Layer, Refusal};
    use order::{Order, Orders};
    use sheet::{Reader, write};
    use std::test::Fail;
    use timetable::{BaseHour, Timetable};

    const OFFICE: [u8; 21] = [
        0, 0xff, 0x80, 0, 0xff, 0x80, 0, 0xff, 0x80, 0, 0xff, 0x80, 0, 0xff, 0x80, 0, 0, 0, 0, 0, 0,
    ];

    const LETTER: Refusal = Refusal {
        number: 16,
        layer: Layer::Order,
        place: 0,
    };

    const AMOUNT: Refusal = Refusal {
        number: 17,
        layer: Layer::Order,
        place: 0,
    };

    #[test]
    fn orders(rt: HostRuntime) {
        let cases = [
            ('D', 0, Some(AMOUNT)),
            ('D', 1, None),
            ('D', 720, None),
            ('D', 721, Some(AMOUNT)),
            ('N', 0, None),
            ('N', 1_000_000, None),
            ('N', 1_000_001, Some(AMOUNT)),
            ('d', 1, Some(LETTER)),
            ('E', 2_000_000, Some(LETTER)),
            // their low bytes are those of 'D' and 'N'
            ('\u{144}', 1, Some(LETTER)),
            ('\u{14e}', 1, Some(LETTER)),
        ];
        for (letter, amount, want) in cases {
            assert_eq!(rt; Order::new(letter, amount).err().map(Refusal::from), want);
        }
    }

    #[test]
    fn one_open_hour(rt: HostRuntime) -> Result<(), Fail> {
        let cases = [
            (0, 0x80, 0),
            (0, 1, 7),
            (1, 0x80, 8),
            (20, 0x80, 160),
            (20, 1, 167),
        ];
        for (byte, bits, hour) in cases {
            let mut bytes = [0u8; 21];
            assert!(rt; byte < 21 && hour < 168);
            bytes[byte] = bits;
            let table = Timetable::new(bytes)?;
            assert_eq!(rt; table.wait(0), hour);
            assert_eq!(rt; table.wait(hour), 0);
            assert_eq!(rt; table.wait(hour + 1), 167);
            assert!(rt; table.is_open(hour + 1680));
        }
        Ok(())
    }

    fn delays(count: usize) -> Result<Orders, Fail> {
        let delay = Order::new('D', 720)?;
        let mut orders = Orders::new();
        for _ in 0..count {
            let _ = orders.push(delay);
        }
        Ok(orders)
    }

    #[test]
    fn sheets(rt: HostRuntime) -> Result<(), Fail> {
        let cases = [(0, 37, 8), (1, 42, 728), (64, 357, 46_592)];
        for (count, long, hour) in cases {
            let table = Timetable::new(OFFICE)?;
            let base = BaseHour::new(8)?;
            let orders = delays(count)?;
            assert_eq!(rt; orders.opening(&table, base), hour);
            let mut out = [0x55u8; 400];
            assert_eq!(rt;
                write(b"SAFE0001", base, &table, &orders, &mut out),
                Ok(long)
            );
            assert!(rt; long < 400);
            assert_eq!(rt; out[long], 0x55);
            let reader = Reader::open(&out[0..long])?;
            assert_eq!(rt; reader.count(), count);
            assert_eq!(rt; reader.name(), b"SAFE0001");
            assert!(rt; reader.order(count).is_none());
        }
        Ok(())
    }
}
