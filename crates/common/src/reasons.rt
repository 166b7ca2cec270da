// Why work is turned away: one for each check that can fail, in the order of their numbers, and any other number.
ghost use Rattle.std.specs.Prelude.{◌≡◌};
ghost use Rattle.common.specs.Reasons.{number_of_reason};
ghost use Rattle.common.specs.Numbered.{IsNumbered};

#[derive(Clone, Copy)]
pub enum Reason {
    BundleTooLong,
    MarkUnknown,
    RecordShort,
    FieldBroken,
    OtherTransferor,
    KeyRepeated,
    LinkMissing,
    OutsideLimits,
    NoConditions,
    DayOutside,
    PersonsOutside,
    ConditionUnread,
    CardTwice,
    BookUnsound,
    NumberOutside,
    NumberTaken,
    BookFull,
    SaleUnknown,
    // Any number, of another version for one: no check of this engine tells it so.
    Unlisted(u8),
}

// The number by which the scope document, the books of the crews and the callers in C know it. 16 went, and is not used again.
impl From<Reason> for u8 {
    ghost from_gives = { λ reason number. number ≡ number_of_reason reason };

    fn from(reason: Reason) -> u8 {
        match reason {
            Reason::BundleTooLong => 1,
            Reason::MarkUnknown => 2,
            Reason::RecordShort => 3,
            Reason::FieldBroken => 4,
            Reason::OtherTransferor => 5,
            Reason::KeyRepeated => 6,
            Reason::LinkMissing => 7,
            Reason::OutsideLimits => 11,
            Reason::NoConditions => 12,
            Reason::DayOutside => 13,
            Reason::PersonsOutside => 14,
            Reason::ConditionUnread => 15,
            Reason::CardTwice => 17,
            Reason::BookUnsound => 21,
            Reason::NumberOutside => 22,
            Reason::NumberTaken => 23,
            Reason::BookFull => 24,
            Reason::SaleUnknown => 25,
            Reason::Unlisted(number) => number,
        }
    }
}

// A number that none of the reasons above has, but for `Unlisted`.
#[derive(Clone, Copy)]
pub struct NoReason(pub u8);

impl TryFrom<u8> for Reason {
    type Error = NoReason;

    ghost try_from_gives = { IsNumbered };

    #[tactic(auto, unfolding(crate::specs::Lists::any))]
    fn try_from(number: u8) -> Result<Reason, NoReason> {
        Ok(match number {
            1 => Reason::BundleTooLong,
            2 => Reason::MarkUnknown,
            3 => Reason::RecordShort,
            4 => Reason::FieldBroken,
            5 => Reason::OtherTransferor,
            6 => Reason::KeyRepeated,
            7 => Reason::LinkMissing,
            11 => Reason::OutsideLimits,
            12 => Reason::NoConditions,
            13 => Reason::DayOutside,
            14 => Reason::PersonsOutside,
            15 => Reason::ConditionUnread,
            17 => Reason::CardTwice,
            21 => Reason::BookUnsound,
            22 => Reason::NumberOutside,
            23 => Reason::NumberTaken,
            24 => Reason::BookFull,
            25 => Reason::SaleUnknown,
            _ => return Err(NoReason(number)),
        })
    }
}
