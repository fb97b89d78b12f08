// Datagrams, written, read and damaged.
ghost use Rattle.worked_cases.specs.Datagrams.{Worked};

// The worked datagram, by the definitions.
pub fn worked_datagram()
    ensures { Worked }
{}

#[cfg(test)]
mod tests {
    use datagram::forms::{Codes, Datagram};
    use datagram::read::read;
    use interface::answers::Refusal;
    use std::test::*;

    const WORKED: [u8; 25] = [
        82, 66, 75, 1, 0, 0, 7, 0, 0, 0, 2, 0, 0, 0, 0, 202, 0, 0, 0, 2, 0, 10, 0, 166, 15,
    ];

    // The number that reading answers.
    fn answer(bytes: &[u8]) -> u32 {
        read(bytes).map_or_else(Refusal::number, |_| 0)
    }

    // The first `count` codes of codes whose two bytes differ.
    fn some_codes(count: u16) -> Codes {
        let mut codes = Codes::new();
        for k in 0..count {
            let _ = codes.push(k.wrapping_mul(2_049));
        }
        codes
    }

    // Whether what is read says what was written; the two are of different types, so `==` does not compare them.
    fn same(wrote: &Datagram<Codes>, got: &Datagram<&[u8]>) -> bool {
        let codes = wrote.codes.as_slice();
        codes
            .iter()
            .enumerate()
            .all(|(k, code)| got.code(k) == Some(*code))
            && got.codes().eq(codes.iter().copied())
            && got.count() == codes.len()
            && got.sender == wrote.sender
            && got.match_number == wrote.match_number
            && got.start == wrote.start
            && got.acknowledgement == wrote.acknowledgement
            && got.report_frame == wrote.report_frame
            && got.digest == wrote.digest
    }

    // Whether a datagram is written in its length, with no byte past it changed, and read as it was.
    fn comes_back(wrote: &Datagram<Codes>) -> bool {
        let mut buffer = [9u8; 90];
        let Ok(length) = wrote.write(&mut buffer) else {
            return false;
        };
        let length = length as usize;
        if length != 21 + 2 * wrote.codes.as_slice().len() || length >= 90 {
            return false;
        }
        read(&buffer[..length]).is_ok_and(|got| same(wrote, &got)) && buffer[length] == 9
    }

    #[test]
    fn worked_bytes(rt: HostRuntime) -> Result<(), Fail> {
        let mut codes = Codes::new();
        assert!(rt; codes.push(2).is_ok());
        assert!(rt; codes.push(10).is_ok());
        let wrote = Datagram {
            sender: 0,
            match_number: 7,
            start: 0,
            codes,
            acknowledgement: 0,
            report_frame: 0,
            digest: 202,
        };
        let mut buffer = [0u8; 25];
        assert_eq!(rt; wrote.write(&mut buffer).map_err(Refusal::number), Ok(25));
        assert_eq!(rt; buffer, WORKED);
        let mut short = [9u8; 24];
        assert_eq!(rt; wrote.write(&mut short).map_err(Refusal::number), Err(14));
        assert_eq!(rt; short, [9u8; 24]);
        Ok(())
    }

    // At each count and each number.
    #[test]
    fn counts_and_numbers(rt: HostRuntime) -> Result<(), Fail> {
        for count in [0u16, 1, 31, 32] {
            for n in [0u16, 255, 256, 65_535] {
                let wrote = Datagram {
                    sender: (n & 1) as u8,
                    match_number: n,
                    start: n,
                    codes: some_codes(count),
                    acknowledgement: n,
                    report_frame: n,
                    digest: u32::from(n) * 65_537,
                };
                assert!(rt; comes_back(&wrote));
            }
        }
        assert_eq!(rt; some_codes(33).as_slice().len(), 32);
        Ok(())
    }

    // Place, byte put there, answer.
    #[test]
    fn damaged(rt: HostRuntime) -> Result<(), Fail> {
        let cases = [
            (0usize, 83u8, 2u32),
            (2, 76, 2),
            (3, 2, 2),
            (4, 1, 2),
            (5, 1, 3),
            (5, 2, 3),
            (6, 8, 3),
            (9, 1, 3),
            (10, 0, 1),
            (10, 3, 1),
            (10, 33, 1),
            (10, 255, 1),
            (15, 203, 3),
            (18, 255, 3),
            (19, 3, 3),
            (22, 1, 3),
            (23, 167, 3),
            (24, 14, 3),
        ];
        assert_eq!(rt; answer(&WORKED), 0);
        for (place, byte, expected) in cases {
            let mut bytes = WORKED;
            assert!(rt; place < 25);
            bytes[place] = byte;
            assert_eq!(rt; answer(&bytes), expected);
        }
        Ok(())
    }

    // 33 codes, with a length that fits and the right check word; and 32, which are read.
    #[test]
    fn one_code_too_many(rt: HostRuntime) {
        let mut read = [0u8; 85];
        read[..11].copy_from_slice(&[82, 66, 75, 1, 0, 0, 7, 0, 0, 0, 32]);
        read[83..].copy_from_slice(&[76, 3]);
        assert_eq!(rt; answer(&read), 0);
        let mut bytes = [0u8; 87];
        bytes[..11].copy_from_slice(&[82, 66, 75, 1, 0, 0, 7, 0, 0, 0, 33]);
        bytes[85..].copy_from_slice(&[87, 3]);
        assert_eq!(rt; answer(&bytes), 1);
    }

    // Every place and every other byte.
    #[test]
    fn one_byte_altered(rt: HostRuntime) -> Result<(), Fail> {
        for place in 0..25usize {
            for byte in 0..=255u8 {
                let mut bytes = WORKED;
                bytes[place] = byte;
                assert!(rt; (answer(&bytes) == 0) == (byte == WORKED[place]));
            }
        }
        Ok(())
    }

    // A part of it, and more than it.
    #[test]
    fn lengths(rt: HostRuntime) -> Result<(), Fail> {
        let long = [
            82u8, 66, 75, 1, 0, 0, 7, 0, 0, 0, 2, 0, 0, 0, 0, 202, 0, 0, 0, 2, 0, 10, 0, 166, 15,
            0, 0, 0, 0, 0,
        ];
        for length in 0..=30usize {
            let expected = if length == 25 { 0 } else { 1 };
            assert_eq!(rt; answer(&long[0..length]), expected);
        }
        Ok(())
    }

    // The first fault decides, and a right check word over a wrong seat is no help.
    #[test]
    fn order(rt: HostRuntime) -> Result<(), Fail> {
        let mut seat = WORKED;
        seat[5] = 2;
        seat[23] = 178;
        assert_eq!(rt; answer(&seat), 4);
        let mut both = WORKED;
        both[0] = 1;
        both[10] = 3;
        assert_eq!(rt; answer(&both), 1);
        both[10] = 2;
        both[24] = 0;
        assert_eq!(rt; answer(&both), 2);
        Ok(())
    }
}
