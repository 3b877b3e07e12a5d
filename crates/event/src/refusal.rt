// The refusals of document 01 and of its change requests, each under a name.
ghost use Rattle.std.specs.Prelude.{◌≡◌};
ghost use Rattle.event.specs.Refusals.{number_of};
ghost use Rattle.event.specs.RefusalLaws.{refusal_numbered};

// In the order of their numbers, 1 to 23; a later number goes at the end.
#[derive(Clone, Copy, Debug, PartialEq, Eq)]
pub enum Refusal {
    BadStart,
    ShortList,
    UnsoundTable,
    NoSuchJob,
    ClockGoneBack,
    TimeSpent,
    AlreadyLive,
    NotLive,
    NoToken,
    StillWaiting,
    EmptySet,
    NoSuchResource,
    NotDeclared,
    AlreadyHeld,
    NotHeld,
    TurnsSpent,
    WrongLength,
    UnknownKind,
    BitSet,
    StartOutOfPlace,
    WrongSize,
    UnknownVersion,
    ClockLeap,
}

// The number that the documents give a refusal, to print.
impl From<Refusal> for u32 {
    ghost from_gives = { λ refusal number. number ≡ number_of refusal };

    fn from(refusal: Refusal) -> u32 {
        match refusal {
            Refusal::BadStart => 1,
            Refusal::ShortList => 2,
            Refusal::UnsoundTable => 3,
            Refusal::NoSuchJob => 4,
            Refusal::ClockGoneBack => 5,
            Refusal::TimeSpent => 6,
            Refusal::AlreadyLive => 7,
            Refusal::NotLive => 8,
            Refusal::NoToken => 9,
            Refusal::StillWaiting => 10,
            Refusal::EmptySet => 11,
            Refusal::NoSuchResource => 12,
            Refusal::NotDeclared => 13,
            Refusal::AlreadyHeld => 14,
            Refusal::NotHeld => 15,
            Refusal::TurnsSpent => 16,
            Refusal::WrongLength => 17,
            Refusal::UnknownKind => 18,
            Refusal::BitSet => 19,
            Refusal::StartOutOfPlace => 20,
            Refusal::WrongSize => 21,
            Refusal::UnknownVersion => 22,
            Refusal::ClockLeap => 23,
        }
    }
}

impl Refusal {
    // The refusal of this number, if one has it.
    #[tactic(auto, unfolding(crate::specs::RefusalLaws::refusals))]
    pub fn numbered(number: u32) -> Option<Refusal>
        ensures { result ≡ refusal_numbered number }
    {
        match number {
            1 => Some(Refusal::BadStart),
            2 => Some(Refusal::ShortList),
            3 => Some(Refusal::UnsoundTable),
            4 => Some(Refusal::NoSuchJob),
            5 => Some(Refusal::ClockGoneBack),
            6 => Some(Refusal::TimeSpent),
            7 => Some(Refusal::AlreadyLive),
            8 => Some(Refusal::NotLive),
            9 => Some(Refusal::NoToken),
            10 => Some(Refusal::StillWaiting),
            11 => Some(Refusal::EmptySet),
            12 => Some(Refusal::NoSuchResource),
            13 => Some(Refusal::NotDeclared),
            14 => Some(Refusal::AlreadyHeld),
            15 => Some(Refusal::NotHeld),
            16 => Some(Refusal::TurnsSpent),
            17 => Some(Refusal::WrongLength),
            18 => Some(Refusal::UnknownKind),
            19 => Some(Refusal::BitSet),
            20 => Some(Refusal::StartOutOfPlace),
            21 => Some(Refusal::WrongSize),
            22 => Some(Refusal::UnknownVersion),
            23 => Some(Refusal::ClockLeap),
            _ => None,
        }
    }
}
