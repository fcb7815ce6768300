// How refusals are decided (specs/Checks.antt), and the table of what is refused (document 01, "The numbers we send back").
#![tactic(auto)]

ghost use Rattle.checks.specs.Refusal.{code, number};
ghost use Rattle.std.specs.Prelude.{◌≡◌};

// A row of the table, named by the rule that is broken. A row's number is that of its variant.
#[derive(Clone, Copy, Debug, PartialEq, Eq)]
pub enum Refusal {
    // The text is not a record of the kind read.
    NoRecord = 1,
    // p is below 257 or above 2,147,483,647.
    ModulusOutOfRange = 2,
    NotPrime = 3,
    // n is 0 or above 12.
    DegreeOutOfRange = 4,
    // Some coefficient is p or more.
    LargeCoefficient = 5,
    // r is 0 or above 6.
    CountOutOfRange = 6,
    MoreWeightsThanZeros = 7,
    // Some weight is 0 or outside -16 to 16.
    WeightOutOfRange = 8,
    // N is above 1,024.
    ManyPlacements = 9,
    // N is p or more.
    PlacementsReachModulus = 10,
    // The output slice is shorter than N.
    ShortOutput = 11,
    // The work room is shorter than 12(N+1).
    ShortWork = 12,
    // A slice lent to a reader is too short.
    ShortLists = 13,
    // The slice lent to a writer is too short.
    ShortText = 14,
    // A record cannot hold the values.
    NotHeld = 15,
    // A number to divide by is zero modulo p.
    ZeroDivisor = 16,
}

impl From<Refusal> for u32 {
    ghost from_gives = { λ r n. n ≡ number r };

    fn from(refusal: Refusal) -> u32 {
        refusal as u32
    }
}

// The number that a result is told by: 0 where nothing is refused.
pub fn code<T>(told: &Result<T, Refusal>) -> u32
    ensures { result ≡ code told.now }
{
    match told {
        Ok(_) => 0,
        Err(refusal) => u32::from(*refusal),
    }
}
