//! Tests of the page.
#![tactic(auto)]

#[cfg(test)]
mod tests {
    use pages::{Damaged, Kind, Reader, Record, Report, write_report};
    use std::test::Fail;
    use times::{Refusal, Time};

    const MEETING: [u8; 11] = [1, 0, 8, 0, 1, 0, 0, 0, 0x50, 0, 3];

    const PARTING: [u8; 11] = [2, 0, 8, 0, 1, 0, 0, 0, 0x28, 0, 1];

    fn report(kind: Kind, lower: u8, higher: u8, n: u32, d: u16) -> Result<Report, Refusal> {
        let time = Time::new(n, d)?;
        Ok(Report {
            kind,
            lower,
            higher,
            time,
        })
    }

    #[test]
    fn the_two_pages(rt: HostRuntime) -> Result<(), Fail> {
        let mut page = [7u8; 24];
        let met = report(Kind::Meeting, 0, 1, 80, 3)?;
        let parted = report(Kind::Parting, 0, 1, 400, 10)?;
        assert_eq!(rt; write_report(&mut page, 0, met), Some(11));
        assert_eq!(rt; write_report(&mut page, 11, parted), Some(22));
        assert_eq!(rt; &page[0..11], &MEETING[0..11]);
        assert_eq!(rt; &page[11..22], &PARTING[0..11]);
        assert_eq!(rt; &page[22..24], &[7u8, 7][0..2]);
        let mut reader = Reader::new(&page[0..22]);
        assert_eq!(rt;
            reader.next(),
            Ok(Some(Record {
                kind: Kind::Meeting,
                lower: 0,
                higher: 1,
                n: 80,
                d: 3,
            }))
        );
        assert_eq!(rt;
            reader.next(),
            Ok(Some(Record {
                kind: Kind::Parting,
                lower: 0,
                higher: 1,
                n: 40,
                d: 1,
            }))
        );
        assert_eq!(rt; reader.next(), Ok(None));
        Ok(())
    }

    #[test]
    fn largest_values(rt: HostRuntime) -> Result<(), Fail> {
        let mut page = [0u8; 11];
        let most = report(Kind::Parting, 62, 63, 799_999_999, 16000)?;
        assert_eq!(rt; write_report(&mut page, 0, most), Some(11));
        assert_eq!(rt;
            &page[0..11],
            &[2u8, 0, 8, 62, 63, 0x2f, 0xaf, 0x07, 0xff, 0x3e, 0x80][0..11]
        );
        let full = [1u8, 0, 8, 255, 255, 255, 255, 255, 255, 255, 255];
        let mut reader = Reader::new(&full);
        assert_eq!(rt;
            reader.next(),
            Ok(Some(Record {
                kind: Kind::Meeting,
                lower: 255,
                higher: 255,
                n: u32::MAX,
                d: u16::MAX,
            }))
        );
        Ok(())
    }

    #[test]
    fn no_room(rt: HostRuntime) -> Result<(), Fail> {
        let mut page = [7u8; 21];
        let met = report(Kind::Meeting, 0, 1, 80, 3)?;
        assert_eq!(rt; write_report(&mut page, 11, met), None);
        assert_eq!(rt; write_report(&mut page, 21, met), None);
        assert_eq!(rt; write_report(&mut page, 22, met), None);
        assert_eq!(rt; write_report(&mut page, usize::MAX, met), None);
        assert_eq!(rt; &page, &[7u8; 21]);
        assert_eq!(rt; write_report(&mut page, 10, met), Some(21));
        assert_eq!(rt; &page[10..21], &MEETING[0..11]);
        Ok(())
    }

    fn first(bytes: &[u8]) -> Result<Option<Record>, Damaged> {
        Reader::new(bytes).next()
    }

    #[test]
    fn damaged(rt: HostRuntime) {
        assert_eq!(rt; first(&[]), Ok(None));
        assert_eq!(rt; first(&MEETING[0..10]), Err(Damaged), "cut off");
        assert_eq!(rt; first(&MEETING[0..1]), Err(Damaged), "a tag alone");
        assert_eq!(rt;
            first(&[0u8, 0, 8, 0, 1, 0, 0, 0, 0x50, 0, 3]),
            Err(Damaged),
            "tag 0"
        );
        assert_eq!(rt;
            first(&[3u8, 0, 8, 0, 1, 0, 0, 0, 0x50, 0, 3]),
            Err(Damaged),
            "tag 3"
        );
        assert_eq!(rt;
            first(&[1u8, 0, 7, 0, 1, 0, 0, 0, 0x50, 0, 3]),
            Err(Damaged),
            "length 7"
        );
        assert_eq!(rt;
            first(&[1u8, 0, 9, 0, 1, 0, 0, 0, 0x50, 0, 3]),
            Err(Damaged),
            "length 9"
        );
        assert_eq!(rt;
            first(&[1u8, 8, 0, 0, 1, 0, 0, 0, 0x50, 0, 3]),
            Err(Damaged),
            "length low byte first"
        );
        assert_eq!(rt;
            first(&[1u8, 1, 8, 0, 1, 0, 0, 0, 0x50, 0, 3]),
            Err(Damaged),
            "length 264"
        );
    }

    #[test]
    fn damage_stays(rt: HostRuntime) {
        let bytes = [1u8, 0, 8, 0, 1, 0, 0, 0, 0x50, 0, 3, 2];
        let mut reader = Reader::new(&bytes);
        assert_eq!(rt;
            reader.next(),
            Ok(Some(Record {
                kind: Kind::Meeting,
                lower: 0,
                higher: 1,
                n: 80,
                d: 3,
            }))
        );
        assert_eq!(rt; reader.next(), Err(Damaged));
        assert_eq!(rt; reader.next(), Err(Damaged));
    }
}
