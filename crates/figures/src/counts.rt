// How many brackets there are.
ghost use Rattle.std.specs.Prelude.{◌≡◌};
ghost use Rattle.figures.specs.Counts.{HowMany, brackets_of};

use facts::refusals::Refusal;

// The companions of the lowest entrant in his half are chosen from all others, in 1, 3, 35 or 6,435
// ways; each half then has its own brackets.
pub fn bracket_count(size: usize) -> Result<u32, Refusal>
    ensures is_the_length_of_every_list_of_all_brackets { HowMany size result }
    ensures is_one_or_three_or_315_or_638512875 { result ≡ brackets_of size }
{
    let of_two = 1;
    let of_four = 3 * of_two * of_two;
    let of_eight = 35 * of_four * of_four;
    let of_sixteen = 6_435 * of_eight * of_eight;
    match size {
        2 => Ok(of_two),
        4 => Ok(of_four),
        8 => Ok(of_eight),
        16 => Ok(of_sixteen),
        _ => Err(Refusal::SizeNotAllowed),
    }
}
