// Sets of entrants as numbers: entrant e is a member where the digit of 2^e is one.
ghost use Rattle.std.specs.Prelude.{◌≡◌};
ghost use Rattle.std.specs.Iterator.{YieldsFirst, item_count};
ghost use Rattle.figures.specs.Sets.{has, all_members};

// A number has 32 digits, so that nobody from 32 on is a member.
#[inline]
pub fn holds(set: u32, entrant: usize) -> bool
    ensures says_whether_he_is_a_member { result ≡ has set entrant }
{
    entrant < 32 && (set >> entrant) % 2 == 1
}

// The members of a set, by rising number.
#[derive(Drop)]
pub struct Members {
    // those who are still to come
    left: u32,
}

impl Members {
    #[inline]
    pub fn of(set: u32) -> Members
        ensures all_are_to_come { result.left ≡ set }
    {
        Members { left: set }
    }
}

impl Iterator for Members {
    type Item = usize;

    ghost next_gives = { YieldsFirst (λ m. all_members m.left) };

    ghost remaining = { item_count (λ m. all_members m.left) };

    #[inline]
    fn next(&mut self) -> Option<usize> {
        if self.left == 0 {
            return None;
        }
        let lowest = self.left.trailing_zeros();
        self.left &= self.left - 1;
        Some(lowest as usize)
    }
}
