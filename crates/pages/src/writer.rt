//! A page, and how much of it is written.
ghost use Rattle.std.specs.Prelude.{◌≡◌, ◌-◌, length};
ghost use Rattle.pages.specs.Of.{report_of, has_room, page_after, used_then};

use crate::report::Report;
use crate::write::write_report;

/// Writes reports on a page, record after record from its start.
#[derive(Drop)]
pub struct PageWriter<'a> {
    page: &'a mut [u8],
    used: usize,
}

impl<'a> PageWriter<'a> {
    /// A writer at the start of a page.
    pub fn new(page: &'a mut [u8]) -> PageWriter<'a>
        ensures page { result.page.now ≡ page.old }
        ensures same { result.page.ghost_name ≡ page.entry.ghost_name }
        ensures used { result.used ≡ 0 }
    {
        PageWriter { page, used: 0 }
    }

    /// How many bytes of the page are used.
    pub fn used(&self) -> usize
        ensures { result ≡ self.now.used }
    {
        self.used
    }

    /// How many bytes of the page are left.
    pub fn left(&self) -> usize
        ensures { result ≡ length self.now.page.now - self.now.used }
    {
        self.page.len().saturating_sub(self.used)
    }

    /// Writes a report's record after those that are written; the rest of the page stays.
    /// Tells whether there was room: where fewer than 11 bytes are left, nothing is written.
    pub fn write(&mut self, report: Report) -> bool
        ensures told { result ≡ has_room self.old.page.now self.old.used }
        ensures used { self.new.used ≡ used_then self.old.page.now self.old.used }
        ensures page { self.new.page.now ≡ page_after self.old.page.now self.old.used (report_of report) }
        ensures same { self.new.page.ghost_name ≡ self.old.page.ghost_name }
    {
        match write_report(self.page, self.used, report) {
            Some(used) => {
                self.used = used;
                true
            }
            None => false,
        }
    }
}
