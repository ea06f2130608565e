// What a kind of word asks of a row (machine/specs/Steps.antt).
ghost use Rattle.std.specs.Prelude.{◌≡◌, ◌&&◌};
ghost use Rattle.counting.specs.Sets.{has};
ghost use Rattle.machine.specs.Words.{LOOK, kind_number};
ghost use Rattle.machine.specs.Steps.{allowed, argument_fits};

use crate::masks::{marked, places};
use machine::{Kind, Row};

// Whether a kind of word is allowed at a row. At 22 both GO and LOOK are, and lis decides; of the
// other kinds the location says all. Each has a case, with a mask that is a constant.
#[tactic(auto, using(crate::proofs::AllowedLaws::kind_tests))]
pub fn allowed(kind: Kind, r: &Row) -> bool
    ensures { result ≡ allowed (kind_number kind) r.now }
{
    let l = r.location;
    match kind {
        Kind::Stay => marked(places(Kind::Stay), l),
        Kind::Come => marked(places(Kind::Come), l),
        Kind::Flicker => marked(places(Kind::Flicker), l),
        Kind::Go => marked(places(Kind::Go), l) & ((l != 22) | (r.lis == 0)),
        Kind::Look => marked(places(Kind::Look), l) & (r.lis != 0),
        Kind::Cancel => marked(places(Kind::Cancel), l),
    }
}

// Whether `a` is an argument at a row of the kind of word that has this number. A number that no kind has
// takes 0 alone.
#[tactic(auto, unfolding(machine::specs::Steps::argument_fits))]
pub fn argument_fits(n: u16, kind: u16, r: &Row, a: u16) -> bool
    ensures { result ≡ argument_fits n kind r.now a }
{
    match kind {
        3 if r.location == 24 => a < n,
        3 => a < 2,
        5 => sets::has(r.lis, a),
        _ => a == 0,
    }
}

// The same of a kind.
#[tactic(auto, unfolding(machine::specs::Steps::argument_fits))]
pub fn kind_takes(n: u16, kind: Kind, r: &Row, a: u16) -> bool
    ensures { result ≡ argument_fits n (kind_number kind) r.now a }
{
    match kind {
        Kind::Look => sets::has(r.lis, a),
        Kind::Flicker if r.location == 24 => a < n,
        Kind::Flicker => a < 2,
        Kind::Stay | Kind::Come | Kind::Go | Kind::Cancel => a == 0,
    }
}

// Whether LOOK at `a` is allowed at a row and `a` fits: a lis that has a member is not empty. Most
// words pass, and which of the two a word fails is not asked here.
#[tactic(auto, using(crate::proofs::AllowedLaws::look_tests))]
pub fn looks(r: &Row, a: u16) -> bool
    ensures { result ≡ (allowed LOOK r.now && has r.now.lis a) }
{
    marked(places(Kind::Look), r.location) && sets::has(r.lis, a)
}
