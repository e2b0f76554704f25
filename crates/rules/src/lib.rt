// The types that the definitions in specs/ share with the code of the layers above.
#![tactic(auto)]

ghost use Rattle.std.specs.Prelude.{◌≡◌};
ghost use Rattle.rules.specs.Refusals.{number_of};

// "A rectangle is (x, y, w, h), its top left cell and its size, at least 1×1."
#[derive(Clone, Copy, Debug, PartialEq, Eq)]
pub struct Rect {
    pub x: usize,
    pub y: usize,
    pub w: usize,
    pub h: usize,
}

// Why a call or a request is refused, each with its code: 1 to 7 are of calls, 8 of the program, the others of requests.
#[derive(Clone, Copy, Debug, PartialEq, Eq)]
pub enum Refusal {
    SurfaceSize = 1,
    WeightsLength = 2,
    TableLength = 3,
    BlockLength = 4,
    AnswersLength = 5,
    DoesNotStand = 6,
    RoomShort = 7,
    NoSurface = 8,
    UnknownOperation = 11,
    StrayByte = 12,
    UnknownRule = 13,
    NoId = 14,
    IdPlaced = 15,
    IdNotPlaced = 16,
    NoSize = 17,
    PastTheEdge = 18,
    NoFreeSlot = 19,
    NoPosition = 20,
    PlaceOccupied = 21,
    ChosenOccupied = 22,
    OfABlock = 23,
}

impl Refusal {
    // The number that the host is told.
    pub fn code(self) -> u8
        ensures { result ≡ number_of self }
    {
        self as u8
    }
}
