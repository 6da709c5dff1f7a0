//! How the values in answers are printed.
ghost use Rattle.std.specs.Prelude.{◌++◌, Some, codes};
ghost use Rattle.times.specs.Texts.{time_text};
ghost use Rattle.console_write.specs.Texts.{break_words, encounter_text, failing_text, lines_text, motion_text, touching_text, yes_text};

use pages::{Encounter, Kind};
use std::fmt;
use times::Moment;

/// A fraction as it is given, which need not be in least terms: `N` where the denominator is 1, else `N/D`.
#[derive(Clone, Copy)]
pub struct Fraction {
    pub n: u32,
    pub d: u16,
}

impl fmt::Display for Fraction {
    ghost output = { λ t. Some (time_text t.n t.d) };

    fn fmt<W: fmt::Write>(&self, f: &mut fmt::Formatter<W>) -> fmt::Result {
        let (n, d) = (self.n, self.d);
        if d == 1 {
            return write!(f, "{n}");
        }
        write!(f, "{n}/{d}")
    }
}

/// A slip: `lines` followed by each line after one space.
#[derive(Clone, Copy)]
pub struct Lines<'a>(pub &'a [u32]);

impl fmt::Display for Lines<'_> {
    ghost output = { λ l. Some (codes "lines" ++ lines_text l.0.now) };

    fn fmt<W: fmt::Write>(&self, f: &mut fmt::Formatter<W>) -> fmt::Result {
        write!(f, "lines")?;
        for line in self.0 {
            write!(f, " {line}")?;
        }
        Ok(())
    }
}

/// What a step told: `met A B` or `parted A B`, the lower craft first, or `neither`.
#[derive(Clone, Copy)]
pub struct News(pub Option<Encounter>);

impl fmt::Display for News {
    ghost output = { λ n. Some (encounter_text n.0) };

    fn fmt<W: fmt::Write>(&self, f: &mut fmt::Formatter<W>) -> fmt::Result {
        let Some(told) = self.0 else {
            return write!(f, "neither");
        };
        let (lower, higher) = (told.lower, told.higher);
        match told.kind {
            Kind::Meeting => write!(f, "met {lower} {higher}"),
            Kind::Parting => write!(f, "parted {lower} {higher}"),
        }
    }
}

/// When a certificate fails: `at TIME side S`, where S is 1 just after the time, or `never`.
#[derive(Clone, Copy)]
pub struct Failing(pub Option<Moment>);

impl fmt::Display for Failing {
    ghost output = { λ w. Some (failing_text w.0) };

    fn fmt<W: fmt::Write>(&self, f: &mut fmt::Formatter<W>) -> fmt::Result {
        match self.0 {
            Some(moment) => {
                let (time, side) = (moment.time, u8::from(moment.after));
                write!(f, "at {time} side {side}")
            }
            None => write!(f, "never"),
        }
    }
}

/// Pairs of touching craft: ` A-B` for each, where an entry is lower × 64 + higher, or ` none`.
#[derive(Clone, Copy)]
pub struct Touching<'a>(pub &'a [u16]);

impl fmt::Display for Touching<'_> {
    ghost output = { λ t. Some (touching_text t.0.now) };

    fn fmt<W: fmt::Write>(&self, f: &mut fmt::Formatter<W>) -> fmt::Result {
        if self.0.is_empty() {
            return write!(f, " none");
        }
        for entry in self.0 {
            let (lower, higher) = (*entry / 64, *entry % 64);
            write!(f, " {lower}-{higher}")?;
        }
        Ok(())
    }
}

/// A line A + V × t on an axis: `A V`.
#[derive(Clone, Copy)]
pub struct Motion(pub (i32, i32));

impl fmt::Display for Motion {
    ghost output = { λ m. Some (motion_text m.0) };

    fn fmt<W: fmt::Write>(&self, f: &mut fmt::Formatter<W>) -> fmt::Result {
        let (a, v) = self.0;
        write!(f, "{a} {v}")
    }
}

/// The next break: `break B` or `break none`.
#[derive(Clone, Copy)]
pub struct Break(pub Option<u16>);

impl fmt::Display for Break {
    ghost output = { λ b. Some (break_words b.0) };

    fn fmt<W: fmt::Write>(&self, f: &mut fmt::Formatter<W>) -> fmt::Result {
        match self.0 {
            Some(tick) => write!(f, "break {tick}"),
            None => write!(f, "break none"),
        }
    }
}

/// `yes` or `no`.
#[derive(Clone, Copy)]
pub struct YesNo(pub bool);

impl fmt::Display for YesNo {
    ghost output = { λ y. Some (yes_text y.0) };

    fn fmt<W: fmt::Write>(&self, f: &mut fmt::Formatter<W>) -> fmt::Result {
        let word = if self.0 { "yes" } else { "no" };
        write!(f, "{word}")
    }
}
