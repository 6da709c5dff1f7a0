//! Why a call is refused.
ghost use Rattle.std.specs.Prelude.{◌≡◌};
ghost use Rattle.times.specs.Refusals.{number_of};

/// The rows of the table of refusals, from its top to its bottom.
#[derive(Clone, Copy, PartialEq, Eq, Debug)]
pub enum Refusal {
    /// The clock's kind, time or goal is not the hall's.
    WrongClock,
    /// A craft or carrier is out of range.
    CraftRange,
    /// One craft is named twice.
    SameCraft,
    /// The craft is already entered.
    Entered,
    /// The craft is not entered.
    NotEntered,
    /// A half size is out of range.
    HalfSize,
    /// The slot is above the last one.
    SlotRange,
    /// The plan breaks its rules.
    PlanRules,
    /// The plan has more legs than the book's leg limit.
    LegLimit,
    /// The level is not below the book's number of levels.
    LevelRange,
    /// The goal is no time: its denominator is 0 or above 16,000, or its value is above 50,000.
    GoalRange,
    /// The goal lies before the clock.
    GoalPast,
    /// Nothing is due.
    NothingDue,
    /// Something is due.
    SomethingDue,
    /// The slip or the list that is lent is too short.
    Room,
    /// Too few certificate numbers are left.
    Numbers,
    /// The book's scale is above 8.
    Scale,
    /// The queue holds something.
    QueueHolds,
}

/// The number that a refusal returns.
impl From<Refusal> for u8 {
    ghost from_gives = { λ refusal number. number ≡ number_of refusal };

    fn from(refusal: Refusal) -> u8 {
        match refusal {
            Refusal::WrongClock => 1,
            Refusal::CraftRange => 2,
            Refusal::SameCraft => 3,
            Refusal::Entered => 4,
            Refusal::NotEntered => 5,
            Refusal::HalfSize => 6,
            Refusal::SlotRange => 7,
            Refusal::PlanRules => 8,
            Refusal::LegLimit => 9,
            Refusal::LevelRange => 10,
            Refusal::GoalRange => 11,
            Refusal::GoalPast => 12,
            Refusal::NothingDue => 13,
            Refusal::SomethingDue => 14,
            Refusal::Room => 15,
            Refusal::Numbers => 16,
            Refusal::Scale => 17,
            Refusal::QueueHolds => 18,
        }
    }
}
