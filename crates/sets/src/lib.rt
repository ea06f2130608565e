// Sets of process numbers in the bits of a u16 (counting/specs/Sets.antt says what they mean).
// `has`, `size`, `lowest_member` and `without` take any arguments. `first_of`, `removed` and `others`
// are for crates above that know their arguments to be in range, and do not branch.
#![tactic(auto)]

ghost use Rattle.std.specs.Prelude.{◌≡◌, ◌<◌, Some};
ghost use Rattle.counting.specs.Sets.{has, size, without, others};
ghost use Rattle.sets.specs.Answers.{lowest_of};
ghost use Rattle.sets.specs.Bounds.{Among};

// Whether q is in s; a q of 16 or more is in no set.
#[tactic(auto, unfolding(counting::specs::Sets::has))]
pub fn has(s: u16, q: u16) -> bool
    ensures { result ≡ has s q }
{
    q < 16 && (s >> q) % 2 == 1
}

// How many members s has.
#[tactic(auto, using(counting::proofs::BitLaws::ones_size))]
pub fn size(s: u16) -> u16
    ensures { result ≡ size s }
{
    s.count_ones() as u16
}

// The lowest member of s, if it has one.
#[tactic(auto, using(crate::proofs::LowestLaws::lowest_zero))]
pub fn lowest_member(s: u16) -> Option<u16>
    ensures { result ≡ lowest_of s }
{
    if s == 0 {
        return None;
    }
    Some(first_of(s))
}

// The lowest member of an s that has one.
#[tactic(auto, using(counting::proofs::BitLaws::zeros_lowest, crate::proofs::LowestLaws::lowest_first))]
pub fn first_of(s: u16) -> u16
    requires { 0 < s }
    ensures { lowest_of s ≡ Some result }
{
    s.trailing_zeros() as u16
}

// The set s, less p; s itself where p is not in it.
pub fn without(s: u16, p: u16) -> u16
    ensures { result ≡ without s p }
{
    if p < 16 { removed(s, p) } else { s }
}

// The set s, less p below 16.
#[tactic(auto, using(counting::proofs::BitLaws::and_without))]
pub fn removed(s: u16, p: u16) -> u16
    requires { p < 16 }
    ensures { result ≡ without s p }
{
    s & !(1 << p)
}

// All of n processes but p.
pub fn others(n: u16, p: u16) -> u16
    requires { Among n p }
    ensures { result ≡ others n p }
{
    ((1u32 << n) - 1 - (1u32 << p)) as u16
}
