// The halves of a set that hold an entrant, one after the other.
ghost use Rattle.std.specs.Prelude.{◌≡◌, ◌<◌};
ghost use Rattle.cells.specs.Standing.{Trying, LeftFrom, Start};
ghost use Rattle.cells.specs.Walks.{AllAhead, FirstGiven, RestTold, PlaceTold, Due, Step, many_ahead};
ghost use Rattle.std.specs.Iterator.{at_most};

use figures::sets::holds;

#[derive(Clone, Copy, PartialEq, Eq, Debug)]
pub struct Half {
    pub set: u32,
    // the other half
    pub rest: u32,
    // its index among the halves of the set that hold the entrant, by rising number
    pub place: usize,
}

// A half that holds the entrant is the set without a part of the others: these parts are walked, falling.
#[derive(Drop)]
pub struct Halves {
    set: u32,
    entrant: u32,
    // the set without the entrant
    others: u32,
    // how many entrants a half has
    wanted: u32,
    // the next part of the others to be tried; the empty one leaves no half
    rest: u32,
    // how many halves were given
    place: usize,
    ghost trying: { 0 < rest → Trying set entrant others wanted rest },
    ghost left: { LeftFrom set entrant rest place },
}

// The set without the entrant, and the empty set where no half holds the entrant.
fn others_of(set: u32, entrant: u32) -> u32
    ensures is_where_a_walk_begins { Start set entrant result }
{
    if holds(set, entrant as usize) && set.count_ones() % 2 == 0 {
        set - (1 << entrant)
    } else {
        0
    }
}

impl Halves {
    // An entrant outside the set has no halves, and a set of odd size has none: nothing is ahead then.
    pub fn of(set: u32, entrant: u32) -> Halves
        ensures all_halves_are_ahead { AllAhead set entrant result.place }
        ensures is_of_that_set_and_entrant { (result.set ≡ set) × (result.entrant ≡ entrant) }
        ensures none_was_given { result.place ≡ 0 }
    {
        let others = others_of(set, entrant);
        Halves {
            set,
            entrant,
            others,
            wanted: set.count_ones() / 2,
            rest: others,
            place: 0,
        }
    }

    // What the next half leaves of the set, and the empty set where no half is ahead. Each part of the
    // others is followed by the next smaller one, so that this is no walk by an index.
    fn due(&self) -> u32
        ensures is_what_the_next_half_leaves { Due self.now.set self.now.entrant self.now.others self.now.wanted self.now.rest result }
    {
        let mut rest = self.rest;
        while rest > 0 && rest.count_ones() != self.wanted {
            rest = (rest - 1) & self.others;
        }
        rest
    }

    // For whoever takes the halves one at a time; the iterator's goes by this one.
    pub fn next(&mut self) -> Option<Half>
        ensures is_the_first_ahead_or_none_where_none_is { FirstGiven self.old.set self.old.entrant self.old.place result self.new.place }
        ensures place_is_its_index_among_the_halves { PlaceTold self.old.set self.old.entrant self.old.place result self.new.place }
        ensures is_a_half_that_holds_the_entrant_with_its_rest { RestTold self.old.set self.old.entrant result }
        ensures stays_with_its_set_and_entrant { (self.new.set ≡ self.old.set) × (self.new.entrant ≡ self.old.entrant) }
    {
        let rest = self.due();
        if rest == 0 {
            return None;
        }
        let half = Half {
            set: self.set - rest,
            rest,
            place: self.place,
        };
        self.rest = (rest - 1) & self.others;
        self.place += 1;
        Some(half)
    }
}

impl Iterator for Halves {
    type Item = Half;

    ghost next_gives = { λ s r t. Step s.set s.entrant s.place r t.place × (t.set ≡ s.set) × (t.entrant ≡ s.entrant) };

    ghost remaining = { λ s. at_most (many_ahead s.set s.entrant s.place) };

    fn next(&mut self) -> Option<Half> {
        self.next()
    }
}
