// The verdict on a record.
ghost use Rattle.figures.specs.Fields.{field_of};
ghost use Rattle.records.specs.Verdicts.{AcceptsRecords, RefusesByTheFirst};

use crate::reading::read_words;
use crate::words::champion_of;
use algebra::algebra::Algebra;
use facts::refusals::Refusal;
use sources::source::MatchSource;

// What an accepted record comes to: who wins the last match, and the product of what all wins are
// worth on the sheet, which may be nothing.
#[derive(Clone, Copy, PartialEq, Eq, Debug)]
pub struct Verdict<V> {
    pub champion: usize,
    pub weight: V,
}

// Reads words as the record of a filled bracket on the whole field.
pub fn verify<V: Algebra, S: MatchSource>(words: &[u32], source: &S) -> Result<Verdict<V>, Refusal>
    ensures accepts_exactly_the_records { AcceptsRecords V.Algebra.means V.Algebra.semiring (field_of (S.MatchSource.sheet source.now)) words.now result }
    ensures refuses_by_the_first_reason { RefusesByTheFirst (S.MatchSource.sheet source.now).size words.now result }
{
    if words.len() != 2 * source.size() - 1 {
        return Err(Refusal::RecordLengthWrong);
    }
    let weight: V = read_words(words, source)?;
    Ok(Verdict {
        champion: champion_of(words[0]),
        weight,
    })
}
