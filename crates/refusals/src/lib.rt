// Why something is refused, and where.
#![tactic(auto)]

ghost use Rattle.std.specs.Prelude.{◌≡◌};
ghost use Rattle.refusals.specs.Refusals.{number, refusal, placed};

// Why: the refusals of docs/FORMAT.md, by their numbers there.
#[derive(Clone, Copy, Debug, PartialEq, Eq)]
pub enum Fault {
    CutSheet = 1,
    StrangeSheetCommand = 2,
    SheetOutOfTurn = 3,
    SheetTail = 4,
    OverFull = 5,
    Range = 6,
    LooseLink = 7,
    DoubledLink = 8,
    Loop = 10,
    NoStore = 11,
    ShortOutput = 12,
    ShortWorkArea = 13,
    CutBundle = 21,
    StrangeBundleCommand = 22,
    BundleOutOfTurn = 23,
    BundleTail = 24,
    UnknownNumber = 25,
    RunCount = 26,
    OverStore = 28,
    Stuck = 29,
    WrongClaim = 30,
    WrongSend = 31,
    WrongReceive = 32,
    LocalOrder = 33,
    BothRefused = 34,
    NoFormula = 35,
    WrongValue = 36,
    WrongRelease = 37,
    NotSmall = 38,
}

// The number of a refusal, and its place.
#[derive(Clone, Copy, Debug, PartialEq, Eq)]
pub struct Refusal {
    pub number: u8,
    pub place: usize,
}

impl Fault {
    // This fault at a place.
    pub fn at(self, place: usize) -> Refusal
        ensures { result ≡ refusal (number self) place }
    {
        Refusal {
            number: self as u8,
            place,
        }
    }
}

// What a test found, with a fault at its place.
pub fn at<T>(tested: Result<T, Fault>, place: usize) -> Result<T, Refusal>
    ensures { result ≡ placed place tested }
{
    match tested {
        Ok(x) => Ok(x),
        Err(fault) => Err(fault.at(place)),
    }
}
