// One pass over the words of a record, from the front.
ghost use Rattle.std.specs.Prelude.{◌≡◌, length};
ghost use Rattle.figures.specs.Fields.{field_of};
ghost use Rattle.records.specs.Records.{word_count};
ghost use Rattle.records.specs.Readings.{win_of, Read};

use crate::judging::is_fair;
use crate::parts::Parts;
use crate::words::{Match, Word, word_of};
use algebra::algebra::Algebra;
use facts::refusals::Refusal;
use figures::sets::holds;
use sources::source::MatchSource;

// What the win is worth on the sheet.
fn match_weight<V: Algebra, S: MatchSource>(source: &S, told: Match) -> V
    ensures { V.Algebra.means result ≡ win_of V.Algebra.semiring (field_of (S.MatchSource.sheet source.now)) told }
{
    let (fact, _) = source.pairing(told.winner, told.loser);
    V::weight(fact)
}

// The product of what the wins are worth, or the first refusal. All words are judged at their places
// before any match is, so a match that does not agree with what is beneath it only gives up the
// product, and the pass goes on. A leaf takes its part off the stack, a match puts its two halves
// there instead. A loop over a first word and the rest, with a small plain stack: a rule of this project.
pub(crate) fn read_words<V: Algebra, S: MatchSource>(
    words: &[u32],
    source: &S,
) -> Result<V, Refusal>
    requires { length words.now ≡ word_count (S.MatchSource.sheet source.now).size }
    ensures { Read V.Algebra.means V.Algebra.semiring (field_of (S.MatchSource.sheet source.now)) words.now result }
{
    let size = source.size();
    // a legal size is a power of two, and so has as many rounds as zeros at its low end
    let mut parts = Parts::one(size.trailing_zeros() as usize);
    let mut seen: u32 = 0;
    let mut weight = Some(V::one());
    let mut rest = words;
    while let [first, more @ ..] = rest {
        let rounds = parts.pop();
        match word_of(*first) {
            Word::Leaf { entrant } if rounds == 0 => {
                if entrant >= size || holds(seen, entrant) {
                    return Err(Refusal::LeafImpossible);
                }
                seen |= 1 << entrant;
            }
            Word::Match(told) if rounds > 0 => {
                let fair = is_fair(told, rounds, more);
                let worth = match_weight(source, told);
                weight = weight.filter(|_| fair).map(|product| product.times(worth));
                parts.push(rounds - 1);
                parts.push(rounds - 1);
            }
            _ => return Err(Refusal::RecordWordMisplaced),
        }
        rest = more;
    }
    weight.ok_or(Refusal::MatchImpossible)
}
