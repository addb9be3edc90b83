// The refusals of document 01, each with its number there. Which call gives which, and when, is left to the crates
// above. Assumes nothing.
#![tactic(auto)]

ghost use Rattle.std.specs.Prelude.{◌≡◌, ◌<◌};
ghost use Rattle.refusal.specs.Refusal.{number};

// Why a frame or a call is refused: of a frame 1 to 11, of its writer 8 to 13, of the station 20 to 30.
#[derive(Clone, Copy, Debug, PartialEq, Eq)]
pub enum Refusal {
    Empty = 1,
    NoStart = 2,
    Short = 3,
    Length = 4,
    Count = 5,
    End = 6,
    Checksum = 7,
    Address = 8,
    Control = 9,
    Point = 10,
    ToAll = 11,
    Unit = 12,
    Output = 13,
    Setting = 20,
    Row = 21,
    Room = 22,
    Destination = 23,
    AccessPoint = 24,
    Service = 25,
    Data = 26,
    Full = 27,
    NoneConfirmed = 28,
    State = 29,
    Limit = 30,
}

impl Refusal {
    // The number of document 01, which is never 0.
    #[tactic(auto, unfolding(crate::specs::Refusal::number))]
    pub fn number(self) -> u8
        ensures value { result ≡ number self }
        ensures lower_bound { 0 < result }
    {
        self as u8
    }
}
