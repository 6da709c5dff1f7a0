//! What holds of every flight book, as theorems.
ghost use Rattle.books.specs.Laws.{OwnLawful, LinesHold, OthersStay, FollowersStay, FramesStay};

/// Own paths within the scale over 2 to the power of the levels make a book lawful. On every lawful book the line read at a time
/// gives the path until its next break, ends included. On every book a change moves the path of no craft that does not follow
/// the one changed, leaves who follows that one, and leaves levels, leg limit and scale.
pub fn books_stand() -> u8
    ensures own { OwnLawful }
    ensures lines { LinesHold }
    ensures others { OthersStay }
    ensures followers { FollowersStay }
    ensures frames { FramesStay }
{
    0
}
