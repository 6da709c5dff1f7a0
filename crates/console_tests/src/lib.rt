//! Tests of the console's input.
#![tactic(auto)]

#[cfg(test)]
mod tests {
    use console_read::parse;
    use console_text::numbers::{number, time};
    use console_text::{Lines, TimeText};

    fn unreadable(line: &[u8]) -> bool {
        parse(line).is_err()
    }

    fn blank(line: &[u8]) -> bool {
        matches!(&parse(line), Ok(None))
    }

    fn ready(line: &[u8]) -> bool {
        matches!(&parse(line), Ok(Some(_)))
    }

    #[test]
    fn numbers(rt: HostRuntime) {
        assert_eq!(rt; number::<u8>(b"+0255"), Some(255));
        assert_eq!(rt; number::<u8>(b"256"), None);
        assert_eq!(rt; number::<u8>(b"-0"), None);
        assert_eq!(rt; number::<u8>(b"+"), None);
        assert_eq!(rt; number::<u8>(b""), None);
        assert_eq!(rt; number::<i16>(b"-32768"), Some(-32768));
        assert_eq!(rt; number::<i16>(b"-0"), Some(0));
        assert_eq!(rt; number::<i16>(b"32768"), None);
        assert_eq!(rt; number::<i32>(b"-2147483648"), Some(-2147483648));
        assert_eq!(rt; number::<i32>(b"-+1"), None);
    }

    #[test]
    fn times(rt: HostRuntime) {
        assert_eq!(rt; time(b"80/3"), Some(TimeText { n: 80, d: 3 }));
        assert_eq!(rt; time(b"7"), Some(TimeText { n: 7, d: 1 }));
        assert_eq!(rt; time(b"1/00"), Some(TimeText { n: 1, d: 0 }));
        assert_eq!(rt; time(b"4294967296"), None);
        assert_eq!(rt; time(b"1/65536"), None);
        assert_eq!(rt; time(b"1/2/3"), None);
        assert_eq!(rt; time(b"1/"), None);
        assert_eq!(rt; time(b"/1"), None);
        assert_eq!(rt; time(b"1/-1"), None);
    }

    #[test]
    fn read(rt: HostRuntime) {
        assert!(rt; ready(b"   open   single  +0   heap   # spaces \xff"));
        assert!(rt; ready(b"file 01 at +100 -0 00 leg 000 -3 -0 +0 end +60"));
        assert!(rt; ready(b"file 0 at 0 0 0 end 5"));
        assert!(rt; ready(b"ride 0 0 on 63"));
        assert!(rt; ready(b"enter 0 +10 010 0000000000000000010#half sizes"));
        assert!(rt; blank(b"     "));
        assert!(rt; blank(b""));
        assert!(rt; blank(b"# step"));
    }

    #[test]
    fn not_read(rt: HostRuntime) {
        assert!(rt; unreadable(b"stop"));
        assert!(rt; unreadable(b"OPEN single 0 heap"));
        assert!(rt; unreadable(b"open single 5 heap"));
        assert!(rt; unreadable(b"open single 0 heap now"));
        assert!(rt; unreadable(b"list\t"));
        assert!(rt; unreadable(b"list \xff"));
        assert!(rt; unreadable(b"room 1000001 0 0"));
        assert!(rt; unreadable(b"file 0 at 0 0 0 leg 0 1 0 end 5"));
        assert!(rt; unreadable(b"file 0 at 0 0 0 end 5 leg 0 0 0 0"));
        assert!(rt; unreadable(b"ride 0 0 off 1"));
    }

    #[test]
    fn lengths(rt: HostRuntime) {
        assert!(rt; blank(&[b'#'; 1000]));
        assert!(rt; unreadable(&[b'#'; 1001]));
    }

    #[test]
    fn lines(rt: HostRuntime) {
        let mut lines = Lines::new(b"a\r\n\nb\r");
        assert!(rt; lines.next() == Some(b"a"));
        assert!(rt; lines.next() == Some(b""));
        assert!(rt; lines.next() == Some(b"b\r"));
        assert!(rt; lines.next().is_none());
    }
}
