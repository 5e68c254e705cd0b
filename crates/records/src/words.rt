// What one word of a record says. A word has 32 bits; the top three are its kind.
ghost use Rattle.std.specs.Prelude.{◌≡◌};
ghost use Rattle.records.specs.Words.{named, word_of};

// What a match word tells. Rounds are counted from 1.
#[derive(Clone, Copy, PartialEq, Eq, Debug)]
pub(crate) struct Match {
    pub(crate) round: usize,
    pub(crate) winner: usize,
    pub(crate) loser: usize,
}

#[derive(Clone, Copy, PartialEq, Eq, Debug)]
pub(crate) enum Word {
    Leaf { entrant: usize },
    Match(Match),
    // another kind, or an unused bit set
    Stray,
}

// The entrant of a leaf, or the winner of a match: the champion of the part that begins with the word.
pub(crate) fn champion_of(bits: u32) -> usize
    ensures { result ≡ named bits }
{
    (bits % 16) as usize
}

pub(crate) fn word_of(bits: u32) -> Word
    ensures { result ≡ word_of bits }
{
    match bits >> 29 {
        0 if (bits >> 4) % (1 << 25) == 0 => Word::Leaf {
            entrant: champion_of(bits),
        },
        1 if (bits >> 12) % (1 << 17) == 0 => Word::Match(Match {
            round: ((bits >> 8) % 16) as usize,
            winner: champion_of(bits),
            loser: ((bits >> 4) % 16) as usize,
        }),
        _ => Word::Stray,
    }
}
