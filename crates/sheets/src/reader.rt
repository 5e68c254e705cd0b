// Reads a sheet into the source of its kind.
ghost use Rattle.std.specs.Prelude.{◌≡◌, ℕ, ◌<◌, ◌∷◌, map, None, Ok};
ghost use Rattle.facts.specs.Amendments.{refusal_of};
ghost use Rattle.facts.specs.Sheets.{Sheet, SameSheet};
ghost use Rattle.sources.specs.declared.kind.SourceKind.{SourceKind};
ghost use Rattle.sheets.specs.Holdings.{sheet_at};
ghost use Rattle.sheets.specs.Contents.{Says};
ghost use Rattle.sheets.specs.Scanning.{opening, advanced, stepped, scanned};
ghost use Rattle.sheets.specs.Machine.{progress_of, word_from, Opened, Moved, Finished, Ended};
ghost use Rattle.sheets.specs.declared.rows.Said.TheVariants.{Row as row};
ghost use Rattle.sheets.specs.Reading.{read_of, answer_of, Left};

use crate::draft::Draft;
use crate::held::Sources;
use crate::misread::{Misread, at_word};
use crate::rows::{Awaited, Said, entrants_at, judge, next_row, place_of};
use crate::words::{Word, word_of};
use facts::prices::Fact;
use facts::refusals::Refusal;
use sources::kind::SourceKind;
use sources::source::MatchSource;

// A sheet whose head is read, and its rows before some place. What they say stands aside in a draft.
#[derive(Drop)]
struct Reader {
    draft: Draft,
    // the next row stands here or behind
    from: usize,
}

impl Reader {
    fn open(head: Word) -> Result<Reader, Refusal>
        ensures { Opened (stepped opening head) result }
    {
        // no size is known before the head, and none is asked for
        match judge(0, Awaited::Head, head)? {
            Said::Head { size, kind } => Ok(Reader {
                draft: Draft::plain(kind, size)?,
                from: 0,
            }),
            Said::Row { .. } => unreachable!(),
        }
    }

    // The three kinds are told apart since each awaits another row.
    fn awaited(&self) -> Awaited
        ensures { result ≡ (progress_of self.now).awaited }
    {
        match &self.draft {
            Draft::Order(_) => Awaited::Upset { from: self.from },
            Draft::Matrix(matrix) => match next_row(SourceKind::Matrix, matrix.size(), self.from) {
                Some(place) => {
                    let (lower, higher) = entrants_at(place);
                    Awaited::Outcome { lower, higher }
                }
                None => Awaited::Nothing,
            },
            Draft::Bribes(bribes) => match next_row(SourceKind::Bribes, bribes.size(), self.from) {
                Some(place) => {
                    let (winner, loser) = entrants_at(place);
                    let (_, other) = bribes.pairing(winner, loser);
                    Awaited::Price {
                        winner,
                        loser,
                        other,
                    }
                }
                None => Awaited::Nothing,
            },
        }
    }

    fn put(&mut self, first: usize, second: usize, facts: (Fact, Fact)) -> Result<(), Refusal>
        requires is_not_refused { refusal_of (progress_of self.old).sheet first second facts ≡ None }
        requires first_is_an_entrant { first < 16 }
        requires second_is_an_entrant { second < 16 }
        ensures { Moved (Ok (advanced (progress_of self.old) (row first second facts))) result self.new }
    {
        self.draft.amend(first, second, facts)?;
        self.from = place_of(first, second) + 1;
        Ok(())
    }

    fn step(&mut self, word: Word) -> Result<(), Refusal>
        ensures { Moved (stepped (progress_of self.old) word) result self.new }
    {
        match judge(self.draft.size(), self.awaited(), word)? {
            Said::Head { .. } => unreachable!(),
            Said::Row {
                first,
                second,
                facts,
            } => self.put(first, second, facts),
        }
    }

    // The draft, where the words may end.
    fn finish(self) -> Result<Draft, Refusal>
        ensures { Finished (progress_of self) result }
    {
        if matches!(self.awaited(), Awaited::Upset { .. } | Awaited::Nothing) {
            Ok(self.draft)
        } else {
            Err(Refusal::WordCountWrong)
        }
    }
}

fn word_from(bytes: &[u8; 4]) -> Word
    ensures { result ≡ word_from bytes.now }
{
    word_of(u32::from_le_bytes(*bytes))
}

fn scan(head: &[u8; 4], rows: &[[u8; 4]]) -> Result<Draft, Misread>
    ensures { Ended (scanned opening (map word_from (head.now ∷ rows.now)) 0) result }
{
    let mut reader = at_word(0, Reader::open(word_from(head)))?;
    for (index, row) in rows.iter().enumerate() {
        at_word(index + 1, reader.step(word_from(row)))?;
    }
    at_word(rows.len() + 1, reader.finish())
}

// Reads as `read` does. What that comes to is promised there; here, how it is found.
fn take_in(bytes: &[u8], sources: &mut Sources) -> Result<SourceKind, Misread>
    ensures answer { result ≡ answer_of (read_of bytes.now) }
    ensures left { Left (read_of bytes.now) sources.old sources.new }
{
    let ([head, rows @ ..], []) = bytes.as_chunks::<4>() else {
        return Err(Misread {
            refusal: Refusal::LengthNotWords,
            word: 0,
        });
    };
    Ok(scan(head, rows)?.put_into(sources))
}

// Reads a sheet into the source of its kind, and answers which that is; a refused sheet changes none.
pub fn read(bytes: &[u8], sources: &mut Sources) -> Result<SourceKind, Misread>
    ensures accepts_what_a_sheet_says { (k : SourceKind) (s : Sheet) → Says bytes.now k s → (result ≡ Ok k) × SameSheet (sheet_at k sources.new) s }
    ensures accepts_nothing_else { (k : SourceKind) → result ≡ Ok k → Says bytes.now k (sheet_at k sources.new) }
    ensures answers_by_the_first_refusal { result ≡ answer_of (read_of bytes.now) }
    ensures sets_the_source_of_its_kind_or_nothing { Left (read_of bytes.now) sources.old sources.new }
{
    take_in(bytes, sources)
}
