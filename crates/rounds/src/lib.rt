// Rounds of a table in place, until some process is at 30, the limit is used up or a word is
// refused (machine/specs/Rounds.antt). specs/Promises.antt says what they ensure.
#![tactic(auto)]

ghost use Rattle.std.specs.Prelude.{◌≡◌, ◌≤◌, length};
ghost use Rattle.counting.specs.Sums.{bit};
ghost use Rattle.machine.specs.Tables.{table_refusal};
ghost use Rattle.machine.specs.Rounds.{round_limit, rounds_from, rounds_of};
ghost use Rattle.rounds.specs.Promises.{Moving, MovesOn, GoesRound, Rounds, RoundsTo};

use census::{count_at, critical};
use machine::{Memory, Refusal, RoundsAnswer, Row};
use steps::going::go_under;
use steps::moving::look;

// Process p is given its word of a round: at 22 it looks at the lowest member of lis, at 10 nothing
// happens, and otherwise it goes on. Answers whether it is at 30 then. The word is allowed, so that
// nothing has to be asked; GO at 20 alone may be refused, by a count that is full. lis is asked for
// first: where it has a member the process is nearly always at 22, and where it has none `go_under` need not
// ask for it again. 10 is asked for on both ways, or the compiler makes one test of lis and 22.
fn move_on(rows: &mut [Row], p: u16) -> Result<bool, Refusal>
    requires { Moving rows.old p }
    ensures { MovesOn rows.old p rows.new result }
{
    let r = rows[p as usize];
    let rests = r.location == 10;
    if r.lis != 0 {
        if r.location == 22 {
            let _told = look(rows, p, sets::first_of(r.lis));
            return Ok(false);
        }
        if rests {
            return Ok(false);
        }
    }
    if rests {
        return Ok(false);
    }
    let _told = go_under(rows, p, Memory::WEAKEST)?;
    Ok((r.location == 21) & (r.level == 0))
}

// One round: each process in number order is given its word, up to the first that is refused. Answers
// whether some process is at 30: that is so after a whole round just where the word of one led there.
#[tactic(auto, using(machine::proofs::SoundRows::sound_few))]
fn round(rows: &mut [Row]) -> Result<bool, Refusal>
    requires { table_refusal rows.old ≡ 0 }
    ensures { GoesRound rows.old rows.new result }
{
    let mut occupied = false;
    for p in 0..rows.len() {
        occupied |= move_on(rows, p as u16)?;
    }
    Ok(occupied)
}

// The most rounds that are done at a table of n processes.
fn round_limit(n: u16) -> u16
    requires { n ≤ 16 }
    ensures { result ≡ round_limit n }
{
    4 * n * n * (n + 3)
}

// Rounds at a table that is known to be sound, which is not checked again. A round that a refused
// word ends is not counted, and who is at 30 is asked again then.
#[tactic(auto, using(machine::proofs::SoundRows::sound_few))]
fn run_rounds(rows: &mut [Row]) -> RoundsAnswer
    requires { table_refusal rows.old ≡ 0 }
    ensures { Rounds rows.old (rounds_from (round_limit (length rows.old)) 0 rows.old) rows.new result }
{
    let limit = round_limit(rows.len() as u16);
    let mut occupied = critical(rows) != 0;
    for r in 0..limit {
        if occupied {
            return answer(0, r, true);
        }
        match round(rows) {
            Ok(arrived) => occupied = arrived,
            Err(refusal) => return answer(refusal.into(), r, critical(rows) != 0),
        }
    }
    answer(0, limit, occupied)
}

// As C gets an answer (include/zaguypo.h): the refusal or 0, the rounds done, and 1 where some process
// is at 30.
fn answer(refusal: u16, rounds: u16, occupied: bool) -> RoundsAnswer
    ensures { result ≡ record { refusal = refusal; rounds = rounds; occupied = bit occupied } }
{
    RoundsAnswer {
        refusal,
        rounds,
        occupied: occupied as u16,
    }
}

// Rounds at a table of any size and content, until some process is at 30 after a round, the limit
// is used up, or a word meets 15. 6 or 7 for the table, and no row is changed; no round where
// nobody is at 20 to 24.
#[tactic(auto, using(machine::proofs::SoundRows::sound_few))]
pub fn rounds(rows: &mut [Row]) -> RoundsAnswer
    ensures { Rounds rows.old (rounds_of rows.old) rows.new result }
{
    if let Err(refusal) = tables::check(rows) {
        return answer(refusal.into(), 0, false);
    }
    if count_at(rows, 20, 24) == 0 {
        return answer(0, 0, critical(rows) != 0);
    }
    run_rounds(rows)
}

// Rounds for C (include/zaguypo.h), in the lent rows.
pub fn zaguypo_rounds(rows: &mut [Row]) -> RoundsAnswer
    ensures { RoundsTo result rows.old rows.new }
{
    rounds(rows)
}
