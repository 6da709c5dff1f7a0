//! Answers cases of overlap and first wrong moments that stand on its input, one to a line, by tools/geometry_cases.py.
#![tactic(auto)]

use fleet::{Axis, Xyz};
use geometry::{HalfSizes, Span, first_wrong, overlaps};
use std::io;
use std::io::{BufRead, BufReader};
use times::{Moment, Time};

/// The numbers of a line: the bit, the axis, the lines (a, v) of two spans, their half sizes on three axes each, and the
/// moment as n, d and side.
const NUMBERS: usize = 15;

#[derive(Clone, Copy)]
struct Case {
    bit: bool,
    p: Span,
    q: Span,
    from: Moment,
}

fn numbers(line: &str) -> Option<[i64; NUMBERS]> {
    let mut words = line.split_whitespace();
    let mut all = [0i64; NUMBERS];
    for number in &mut all {
        *number = words.next()?.parse().ok()?;
    }
    words.next().is_none().then_some(all)
}

fn axis(number: i64) -> Option<Axis> {
    match number {
        0 => Some(Axis::X),
        1 => Some(Axis::Y),
        2 => Some(Axis::Z),
        _ => None,
    }
}

fn sizes(x: i64, y: i64, z: i64) -> Option<HalfSizes> {
    HalfSizes::new(Xyz {
        x: u16::try_from(x).ok()?,
        y: u16::try_from(y).ok()?,
        z: u16::try_from(z).ok()?,
    })
    .ok()
}

fn line(a: i64, v: i64) -> Option<(i32, i32)> {
    Some((i32::try_from(a).ok()?, i32::try_from(v).ok()?))
}

fn read_case(text: &str) -> Option<Case> {
    let c = numbers(text)?;
    let on = axis(c[1])?;
    let time = Time::new(u32::try_from(c[12]).ok()?, u16::try_from(c[13]).ok()?).ok()?;
    Some(Case {
        bit: c[0] == 1,
        p: Span::new(line(c[2], c[3])?, sizes(c[6], c[7], c[8])?, on),
        q: Span::new(line(c[4], c[5])?, sizes(c[9], c[10], c[11])?, on),
        from: Moment {
            time,
            after: c[14] == 1,
        },
    })
}

fn main(rt: HostRuntime) -> io::Result<()> {
    for text in BufReader::new(rt.alloc(), rt.stdin())?.lines(rt.alloc()) {
        let text = text?;
        match read_case(text.as_str()) {
            Some(c) => {
                let now = u8::from(overlaps(c.p, c.q, c.from));
                match first_wrong(c.bit, c.p, c.q, c.from) {
                    Some(m) => {
                        let n = m.time.numerator();
                        let d = m.time.denominator();
                        let side = u8::from(m.after);
                        println!(rt; "{now} {n}/{d} {side}")?;
                    }
                    None => println!(rt; "{now} never")?,
                }
            }
            None => println!(rt; "no case")?,
        }
    }
    Ok(())
}
