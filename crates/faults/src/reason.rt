ghost use Rattle.std.specs.Prelude.{◌≡◌};
ghost use Rattle.faults.specs.Numbers.{number_of, reason_by};

/// Why a call refuses. Each case has a number, by which users know it and which docs/refusals.md lists.
#[derive(Clone, Copy, PartialEq, Eq, Debug)]
pub enum Reason {
    SheetSize = 1,
    ForeignByte = 2,
    Heading = 3,
    FieldCount = 4,
    NumberRange = 5,
    Word = 6,
    NameTaken = 7,
    UnknownTask = 8,
    Count = 9,
    Settings = 10,
    TokenFreeRing = 11,
    Ceiling = 12,
    Missing = 13,
    NeedRange = 14,
    InletFull = 15,
    ClockSpent = 16,
    SlotsTaken = 17,
    Length = 18,
    Times = 19,
}

impl Reason {
    /// The number that is printed.
    pub fn number(self) -> u8
        ensures value { result ≡ number_of self }
        ensures known { reason_by result ≡ self }
    {
        u8::from(self)
    }
}

impl From<Reason> for u8 {
    ghost from_gives = { λ reason n. n ≡ number_of reason };

    fn from(reason: Reason) -> u8 {
        reason as u8
    }
}
