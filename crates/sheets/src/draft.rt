// The source that a sheet is read into, of the kind that its head names. It stands aside until the
// whole sheet is accepted.
ghost use Rattle.std.specs.Prelude.{◌≡◌, None};
ghost use Rattle.facts.specs.Sheets.{SameSheet, amended};
ghost use Rattle.facts.specs.Amendments.{refusal_of};
ghost use Rattle.facts.specs.Outcomes.{decided};
ghost use Rattle.sheets.specs.Holdings.{sheet_at, OthersKept};
ghost use Rattle.sheets.specs.Drafts.{draft_kind, draft_sheet, PlainDraft};

use crate::held::Sources;
use facts::prices::Fact;
use facts::refusals::Refusal;
use sources::bribes::BribeFile;
use sources::kind::SourceKind;
use sources::matrix::ResultMatrix;
use sources::order::StrengthOrder;
use sources::source::MatchSource;

// An enum and no `dyn MatchSource`: the kinds are closed, there is no heap for a box, and the source goes
// by value into the place of its kind.
#[derive(Drop)]
pub(crate) enum Draft {
    Matrix(ResultMatrix),
    Order(StrengthOrder),
    Bribes(BribeFile),
}

impl Draft {
    // What a reader begins from: whatever no row changes is as on a plain sheet.
    pub(crate) fn plain(kind: SourceKind, size: usize) -> Result<Draft, Refusal>
        ensures { PlainDraft kind size result }
    {
        match kind {
            SourceKind::Matrix => ResultMatrix::lower_always_wins(size).map(Draft::Matrix),
            SourceKind::Order => StrengthOrder::without_upsets(size).map(Draft::Order),
            SourceKind::Bribes => BribeFile::all_free(size).map(Draft::Bribes),
        }
    }

    pub(crate) fn size(&self) -> usize
        ensures { result ≡ (draft_sheet self.now).size }
    {
        match self {
            Draft::Matrix(matrix) => matrix.size(),
            Draft::Order(order) => order.size(),
            Draft::Bribes(bribes) => bribes.size(),
        }
    }

    pub(crate) fn amend(&mut self, a: usize, b: usize, facts: (Fact, Fact)) -> Result<(), Refusal>
        ensures answer { result ≡ decided (refusal_of (draft_sheet self.old) a b facts) }
        ensures accepted { refusal_of (draft_sheet self.old) a b facts ≡ None → SameSheet (draft_sheet self.new) (amended (draft_sheet self.old) a b facts) }
        ensures kind { draft_kind self.new ≡ draft_kind self.old }
    {
        match self {
            Draft::Matrix(matrix) => matrix.amend(a, b, facts),
            Draft::Order(order) => order.amend(a, b, facts),
            Draft::Bribes(bribes) => bribes.amend(a, b, facts),
        }
    }

    // Puts it in the place of the source of its kind, and answers which that is.
    pub(crate) fn put_into(self, sources: &mut Sources) -> SourceKind
        ensures { (result ≡ draft_kind self) × (sheet_at result sources.new ≡ draft_sheet self) × OthersKept result sources.old sources.new }
    {
        match self {
            Draft::Matrix(matrix) => {
                sources.matrix = matrix;
                SourceKind::Matrix
            }
            Draft::Order(order) => {
                sources.order = order;
                SourceKind::Order
            }
            Draft::Bribes(bribes) => {
                sources.bribes = bribes;
                SourceKind::Bribes
            }
        }
    }
}
