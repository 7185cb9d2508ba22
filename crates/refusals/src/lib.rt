// The refusals of document 01, by name: what a call answers in place of what it was asked for. Their numbers are document 01's too, and a C caller is told those.
#![tactic(auto)]

ghost use Rattle.std.specs.Prelude.{◌≡◌, cond, Ok, Err};
ghost use Rattle.refusals.specs.Refusals.{number, code};

#[derive(Clone, Copy, PartialEq, Eq)]
pub enum Refusal {
    BadSize,
    BadSpacing,
    BadStudy,
    BadStore,
    Full,
    TooManyPoles,
    NoSuchMaterial,
    StaleMaterial,
    BadRegion,
    BadOrder,
    SpentClock,
    NoRoom,
    Short,
    BadMark,
    BadRecord,
    Trailing,
    NoSuchPlane,
    BadPole,
}

impl Refusal {
    // kept: a method and no From, whose call as `u32::from` the test on the source cannot follow (docs/DECISIONS.md, D-52).
    pub fn number(self) -> u32
        ensures { result ≡ number self }
    {
        match self {
            Refusal::BadSize => 1,
            Refusal::BadSpacing => 2,
            Refusal::BadStudy => 3,
            Refusal::BadStore => 4,
            Refusal::Full => 5,
            Refusal::TooManyPoles => 6,
            Refusal::NoSuchMaterial => 7,
            Refusal::StaleMaterial => 8,
            Refusal::BadRegion => 9,
            Refusal::BadOrder => 10,
            Refusal::SpentClock => 11,
            Refusal::NoRoom => 12,
            Refusal::Short => 13,
            Refusal::BadMark => 14,
            Refusal::BadRecord => 15,
            Refusal::Trailing => 16,
            Refusal::NoSuchPlane => 17,
            Refusal::BadPole => 19,
        }
    }
}

// What a C caller is told: the refusal's number, 0 where there is none.
pub fn code_of<T>(answer: &Result<T, Refusal>) -> u32
    ensures { result ≡ code answer.now }
{
    match answer {
        Ok(_) => 0,
        Err(f) => f.number(),
    }
}

// A test that has to pass.
pub fn require(passes: bool, otherwise: Refusal) -> Result<(), Refusal>
    ensures { result ≡ cond passes (Ok tt) (Err otherwise) }
{
    if passes { Ok(()) } else { Err(otherwise) }
}
