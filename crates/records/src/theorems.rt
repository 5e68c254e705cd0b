// What is proved of records. A function here holds a theorem, which its contract states; it does
// nothing else.
ghost use Rattle.records.specs.Theorems.{RefusedExactly, ToldApart};
ghost use Rattle.records.specs.Examples.{WordsOfFour};

// Words meet no refusal exactly where some filled bracket on the field has them as its record.
pub fn refused_exactly_where_no_bracket_is_recorded()
    ensures refused_exactly { RefusedExactly }
{}

// A record tells its filled bracket from every other on the field.
pub fn records_tell_brackets_apart()
    ensures told_apart { ToldApart }
{}

// The words of a bracket of four entrants, computed.
pub fn a_small_record_computes()
    ensures words_of_four { WordsOfFour }
{}
