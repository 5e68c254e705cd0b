// Why a call refuses. Each reason stands with the number by which people know it.
ghost use Rattle.std.specs.Prelude.{◌≡◌};
ghost use Rattle.facts.specs.Refusals.{number_of};

#[derive(Clone, Copy, PartialEq, Eq, Debug)]
pub enum Refusal {
    LengthNotWords = 1,
    NotAHead = 2,
    SizeNotAllowed = 3,
    SourceUnknown = 4,
    WordNotAwaited = 5,
    EntrantsImpossible = 6,
    EntrantsNotAwaited = 7,
    PriceNotAllowed = 8,
    SecondPriceNotFree = 9,
    WordCountWrong = 10,
    EntrantUnknown = 11,
    EntrantsEqual = 12,
    PriceAboveTop = 13,
    NeitherSideFree = 14,
    PairingNotCarried = 15,
    MemoryTooShort = 16,
    RecordLengthWrong = 17,
    RecordWordMisplaced = 18,
    LeafImpossible = 19,
    MatchImpossible = 20,
    SizesDiffer = 31,
    NoWitness = 32,
    NobodyCanWin = 33,
    LevelsAllFilled = 34,
    LevelMissing = 35,
}

impl Refusal {
    // By `as`; nothing makes a refusal of a number, so that there is no way back.
    pub fn number(self) -> u8
        ensures is_the_number_people_know_it_by { result ≡ number_of self }
    {
        self as u8
    }
}
