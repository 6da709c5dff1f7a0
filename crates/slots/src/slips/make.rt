//! Making a slip, and writing on it.
ghost use Rattle.std.specs.Prelude.{◌≡◌, ◌+◌, ◌<◌, length, slice_set};

use crate::slips::Slip;

impl<'a> Slip<'a> {
    /// A slip on these lines, with none used.
    pub fn new(lines: &'a mut [u32]) -> Slip<'a>
        ensures same { result.lines.ghost_name ≡ lines.entry.ghost_name }
        ensures lines { result.lines.now ≡ lines.old }
        ensures used { result.used ≡ 0 }
    {
        Slip { lines, used: 0 }
    }

    /// Writes the next line. It is public for the crates above, which see that there is room.
    pub fn write(&mut self, line: u32)
        requires { self.old.used < length self.old.lines.now }
        ensures same { self.new.lines.ghost_name ≡ self.old.lines.ghost_name }
        ensures lines { self.new.lines.now ≡ slice_set self.old.lines.now self.old.used line }
        ensures used { self.new.used ≡ self.old.used + 1 }
    {
        self.lines[self.used] = line;
        self.used += 1;
    }
}
