// The field of a knockout: how many entrants it may have, and which two of them can meet.
ghost use Rattle.std.specs.Prelude.{◌≡◌};
ghost use Rattle.facts.specs.Fields.{legal, opponents};

pub fn is_legal_size(size: usize) -> bool
    ensures says_whether_a_knockout_has_that_many { result ≡ legal size }
{
    matches!(size, 2 | 4 | 8 | 16)
}

pub fn are_opponents(size: usize, a: usize, b: usize) -> bool
    ensures says_whether_both_are_entrants_and_differ { result ≡ opponents size a b }
{
    a < size && b < size && a != b
}
