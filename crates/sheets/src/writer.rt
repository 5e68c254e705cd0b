// Writes the sheet of a source.
ghost use Rattle.std.specs.Prelude.{◌≡◌, ℕ, ◌+◌, ◌*◌, ◌<◌, ◌≤◌, [], ◌∷◌, ◌++◌, length, take, drop, Ok};
ghost use Rattle.sheets.specs.Words.{bits_of};
ghost use Rattle.sheets.specs.Bytes.{bytes_of};
ghost use Rattle.sheets.specs.Holdings.{sheet_at};
ghost use Rattle.sheets.specs.Contents.{row_for, row_at, Says};
ghost use Rattle.sheets.specs.Writing.{bytes_for, told, words_told, size_or_refusal, overwritten};

use crate::held::Sources;
use crate::rows::{entrants_at, has_row};
use crate::words::{Word, bits_of};
use facts::prices::{Fact, is_free};
use facts::refusals::Refusal;
use sources::kind::SourceKind;
use sources::place::PLACES;

// A `match` on the kind, of which there are three for good: each has another row.
fn row_for(kind: SourceKind, first: usize, second: usize, fact: Fact) -> Option<Word>
    ensures { result ≡ row_for kind first second fact }
{
    match kind {
        SourceKind::Matrix if is_free(fact) => Some(Word::Outcome {
            winner: first,
            loser: second,
        }),
        SourceKind::Matrix => Some(Word::Outcome {
            winner: second,
            loser: first,
        }),
        SourceKind::Order if is_free(fact) => Some(Word::Upset {
            winner: first,
            loser: second,
        }),
        SourceKind::Order => None,
        SourceKind::Bribes => Some(Word::Price {
            winner: first,
            loser: second,
            fact: Some(fact),
        }),
    }
}

fn put_word(buffer: &mut [u8], start: usize, bits: u32)
    requires { start + 4 ≤ length buffer.old }
    ensures { buffer.new ≡ take start buffer.old ++ (bytes_of (bits ∷ []) ++ drop (start + 4) buffer.old) }
{
    buffer[start..start + 4].copy_from_slice(&bits.to_le_bytes());
}

// The source of a kind, which a sheet is written of. As a reader, a writer is shown one source of each
// kind (a rule of this project), and the kind says which.
#[derive(Drop)]
struct Writer<'a> {
    kind: SourceKind,
    sources: &'a Sources,
}

impl Writer<'_> {
    fn row_at(&self, place: usize) -> Option<Word>
        ensures { result ≡ row_at self.now.kind (told self.now).size (told self.now).beats place }
    {
        if !has_row(self.kind, self.sources.size(self.kind), place) {
            return None;
        }
        let (first, second) = entrants_at(place);
        let (fact, _) = self.sources.pairing(self.kind, first, second);
        row_for(self.kind, first, second, fact)
    }

    // The places are walked by plain loops, here and in `put_sheet`: with adapters of iterators, as
    // `filter_map` and `chain`, a sheet takes two to five times as long to write, as measured.
    fn count_words(&self) -> usize
        ensures { (result ≡ length (words_told self.now)) × (result ≤ 257) }
    {
        let mut count = 1;
        for place in 0..PLACES {
            if self.row_at(place).is_some() {
                count += 1;
            }
        }
        count
    }

    // Puts the head and the rows behind it into the front of the buffer, each at its index: after
    // `chunks_exact_mut` it would not be known what the buffer is.
    fn put_sheet(&self, buffer: &mut [u8])
        requires { length (bytes_for self.now.kind (told self.now)) ≤ length buffer.old }
        ensures { buffer.new ≡ bytes_for self.now.kind (told self.now) ++ drop (length (bytes_for self.now.kind (told self.now))) buffer.old }
    {
        let head = Word::Head {
            size: self.sources.size(self.kind),
            source: self.kind.number(),
        };
        put_word(buffer, 0, bits_of(head));
        let mut end = 4;
        for place in 0..PLACES {
            if let Some(word) = self.row_at(place) {
                put_word(buffer, end, bits_of(word));
                end += 4;
            }
        }
    }
}

// Writes the sheet of the source of a kind into the front of the buffer, and answers how many bytes that are.
pub fn write(kind: SourceKind, sources: &Sources, buffer: &mut [u8]) -> Result<usize, Refusal>
    ensures says_that_source { (n : ℕ) → result ≡ Ok n → Says (take n buffer.new) kind (sheet_at kind sources.now) }
    ensures answers_the_size_or_too_short { result ≡ size_or_refusal (bytes_for kind (sheet_at kind sources.now)) buffer.old }
    ensures writes_the_front_alone_or_nothing { buffer.new ≡ overwritten (bytes_for kind (sheet_at kind sources.now)) buffer.old }
{
    let writer = Writer { kind, sources };
    let size = 4 * writer.count_words();
    if buffer.len() < size {
        return Err(Refusal::MemoryTooShort);
    }
    writer.put_sheet(buffer);
    Ok(size)
}
