//! What holds of every page.
ghost use Rattle.pages.specs.Laws.{ReadsBack, WrittenBack, OnlyPages, NoPage, ReadInTurn};

/// Reading a page back gives the reports that were written, and bytes that are no page are told as such.
pub fn pages_read_back() -> u8
    ensures back { ReadsBack }
    ensures written { WrittenBack }
    ensures only { OnlyPages }
    ensures other { NoPage }
    ensures turn { ReadInTurn }
{
    0
}
