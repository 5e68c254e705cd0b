// What one word of a sheet says. A word has 32 bits; the top three are its kind.
ghost use Rattle.std.specs.Prelude.{◌≡◌, ◌<◌};
ghost use Rattle.sheets.specs.Words.{fact_of, word_of, bits_of, Fitting};

use facts::prices::Fact;

#[derive(Clone, Copy)]
pub(crate) enum Word {
    Head {
        size: usize,
        // the number as it was read: a wrong size is refused before a wrong source
        source: u8,
    },
    // no fact where the mark of a win that no price buys stands beside a price
    Price {
        winner: usize,
        loser: usize,
        fact: Option<Fact>,
    },
    Upset {
        winner: usize,
        loser: usize,
    },
    Outcome {
        winner: usize,
        loser: usize,
    },
    // another kind, or an unused bit set
    Stray,
}

fn fact_of(price: u32, never: bool) -> Option<Fact>
    ensures { result ≡ fact_of price never }
{
    match (price, never) {
        (_, false) => Some(Some(price)),
        (0, true) => Some(None),
        _ => None,
    }
}

pub(crate) fn word_of(bits: u32) -> Word
    ensures { result ≡ word_of bits }
{
    match bits >> 29 {
        2 if (bits >> 7) % (1 << 22) == 0 => Word::Head {
            size: (bits % 32) as usize,
            source: ((bits >> 5) % 4) as u8,
        },
        3 => Word::Price {
            winner: ((bits >> 24) % 16) as usize,
            loser: ((bits >> 20) % 16) as usize,
            fact: fact_of(bits % (1 << 20), (bits >> 28) % 2 == 1),
        },
        5 if (bits >> 8) % (1 << 21) == 0 => Word::Upset {
            winner: (bits % 16) as usize,
            loser: ((bits >> 4) % 16) as usize,
        },
        6 if (bits >> 8) % (1 << 21) == 0 => Word::Outcome {
            winner: (bits % 16) as usize,
            loser: ((bits >> 4) % 16) as usize,
        },
        _ => Word::Stray,
    }
}

pub(crate) fn bits_of(word: Word) -> u32
    requires { Fitting word }
    ensures { result ≡ bits_of word }
{
    match word {
        Word::Head { size, source } => (2 << 29) + (u32::from(source) << 5) + size as u32,
        Word::Price {
            winner,
            loser,
            fact: Some(fact),
        } => {
            let told = fact.unwrap_or(1 << 28);
            (3 << 29) + ((winner as u32) << 24) + ((loser as u32) << 20) + told
        }
        Word::Upset { winner, loser } => (5 << 29) + ((loser as u32) << 4) + winner as u32,
        Word::Outcome { winner, loser } => (6 << 29) + ((loser as u32) << 4) + winner as u32,
        // no sheet has these
        Word::Price { fact: None, .. } | Word::Stray => 0,
    }
}
