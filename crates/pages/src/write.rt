//! Writing reports on a page.
ghost use Rattle.std.specs.Prelude.{◌≡◌};
ghost use Rattle.rules.specs.Pages.{page_record};
ghost use Rattle.pages.specs.Of.{report_of, page_after, used_after};

use crate::report::Report;

/// The length of a report's record: tag, length, and 8 bytes.
pub const RECORD: usize = 11;

/// How many bytes of a record stand after its tag and that number.
pub(crate) const LENGTH: u16 = 8;

impl Report {
    /// The bytes of the report's record.
    pub fn to_bytes(self) -> [u8; RECORD]
        ensures { result ≡ page_record (report_of self) }
    {
        let [high, low] = LENGTH.to_be_bytes();
        let [n3, n2, n1, n0] = self.time.numerator().to_be_bytes();
        let [d1, d0] = self.time.denominator().to_be_bytes();
        let (tag, lower, higher) = (u8::from(self.kind), self.lower, self.higher);
        [tag, high, low, lower, higher, n3, n2, n1, n0, d1, d0]
    }
}

/// Writes a report's record on the page from `at` on; the rest of the page stays.
/// Tells how many bytes of the page are then used, or none where fewer than 11 are left: then nothing is written.
pub fn write_report(page: &mut [u8], at: usize, report: Report) -> Option<usize>
    ensures told { result ≡ used_after page.old at }
    ensures page { page.new ≡ page_after page.old at (report_of report) }
{
    let end = at.checked_add(RECORD)?;
    if end > page.len() {
        return None;
    }
    page[at..end].copy_from_slice(&report.to_bytes());
    Some(end)
}
