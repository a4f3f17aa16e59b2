// What every layer shares: labels and positions, and the numbered refusals.
// The definitions and the theorems of the record stand in specs/.
#![tactic(auto)]

ghost use Rattle.std.specs.Prelude.{◌≡◌, ◌≤◌};
ghost use Rattle.record.specs.Refusal.{number_of};

// The place of a room in the order "left of it or above it", from 1.
#[derive(Clone, Copy)]
pub struct Label(pub u8);

// The place of a room in the order "left of it or below it", from 1.
#[derive(Clone, Copy)]
pub struct Position(pub u8);

impl Label {
    // The label as an index.
    pub fn index(self) -> usize
        ensures { (result ≡ self.0) × (result ≤ 255) }
    {
        usize::from(self.0)
    }
}

// Why a call is refused, with the sheet's number: a row of its table each, in the table's order.
#[derive(Clone, Copy, Debug, PartialEq, Eq)]
pub enum Refusal {
    Count = 1,
    RoomSize = 2,
    Overlap = 3,
    Uncovered = 4,
    FourMeet = 5,
    LabelOutside = 6,
    LabelTwice = 7,
    BarredPattern = 8,
    NoKind = 9,
    ShortBody = 10,
    BytesAfter = 11,
    MissingRun = 12,
    SeveralRuns = 13,
    SpareBit = 14,
    ShortOutput = 15,
    PositionOutside = 16,
    SamePosition = 17,
    TextForm = 18,
    NotSlicing = 19,
    NameTwice = 20,
    TooLong = 21,
    BeyondBook = 22,
    OtherSummary = 23,
    OtherLength = 24,
    ZeroSize = 25,
    BrokenRelation = 26,
    EmptyGroup = 27,
    BadMove = 28,
    OnlyRoom = 29,
    NotCounted = 30,
}

impl Refusal {
    // The sheet's number.
    pub fn number(self) -> u8
        ensures { result ≡ number_of self }
    {
        self as u8
    }
}
