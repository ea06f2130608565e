// What a step makes of a row (machine/specs/Steps.antt). `n` is the number of processes, `p` the one
// that moves, `c` the set of those that compete, `v` what turn[level] holds.
ghost use Rattle.std.specs.Prelude.{◌≡◌, true, ◌<◌};
ghost use Rattle.sets.specs.Bounds.{Among};
ghost use Rattle.machine.specs.Rows.{with_location, with_act};
ghost use Rattle.machine.specs.Shared.{asks_turn};
ghost use Rattle.machine.specs.Steps.{entered, started, looked, reconsidered, pushed, raisable};

use crate::passes::raised;
use machine::Row;

// LOOK at q, whose act is given: q leaves lis, and est too where its act is 0.
#[tactic(auto, unfolding(machine::specs::Steps::looked))]
pub fn looked(q: u16, act: u16, r: Row) -> Row
    requires { q < 16 }
    ensures { result ≡ looked q act r }
{
    let est = if act == 0 {
        sets::removed(r.est, q)
    } else {
        r.est
    };
    Row {
        est,
        lis: sets::removed(r.lis, q),
        ..r
    }
}

// GO at 20: act 1, level n - 1, est all but p, ahead those that compete, each of them passed once more,
// to 21.
#[tactic(auto, unfolding(machine::specs::Steps::entered))]
pub fn entered(n: u16, p: u16, c: u16, r: Row) -> Row
    requires among { Among n p }
    requires passes_value { raisable c r.passes ≡ true }
    ensures { result ≡ entered n p c r }
{
    Row {
        location: 21,
        act: 1,
        level: n - 1,
        est: sets::others(n, p),
        ahead: c,
        passes: raised(c, r.passes),
        ..r
    }
}

// GO at 21: to 22 with lis as est, or at level 0 to 30.
#[tactic(auto, unfolding(machine::specs::Steps::started))]
pub fn started(r: Row) -> Row
    ensures { result ≡ started r }
{
    if 0 < r.level {
        Row {
            location: 22,
            lis: r.est,
            ..r
        }
    } else {
        Row { location: 30, ..r }
    }
}

// GO at 23: level falls to the size of est where that is less; else to 24 where bb is 0; else
// level falls by one where turn[level] is not p, and at 0 stays.
#[tactic(auto, unfolding(machine::specs::Steps::reconsidered))]
pub fn reconsidered(p: u16, v: u16, r: Row) -> Row
    ensures { result ≡ reconsidered p v r }
{
    let left = sets::size(r.est);
    let (location, bb, level) = if left < r.level {
        (21, 0, left)
    } else if r.bb == 0 {
        (24, 0, r.level)
    } else if v != p {
        (21, 0, r.level.saturating_sub(1))
    } else {
        (21, r.bb, r.level)
    };
    Row {
        location,
        bb,
        level,
        ..r
    }
}

// Whether GO at 23 asks for turn[level]: not where est has fewer members than level, nor where bb is 0.
pub fn asks_turn(r: &Row) -> bool
    ensures { result ≡ asks_turn r.now }
{
    let low = sets::size(r.est) < r.level;
    !low & (r.bb != 0)
}

// GO at 24, but for the turn cell: bb 1, est all but p, ahead those that compete less p, to 21.
#[tactic(auto, unfolding(machine::specs::Steps::pushed))]
pub fn pushed(n: u16, p: u16, c: u16, r: Row) -> Row
    requires { Among n p }
    ensures { result ≡ pushed n p c r }
{
    Row {
        location: 21,
        bb: 1,
        est: sets::others(n, p),
        ahead: sets::removed(c, p),
        ..r
    }
}

// GO at 40: act 0, to 10.
pub fn left(r: Row) -> Row
    ensures { result ≡ with_location 10 (with_act 0 r) }
{
    Row {
        location: 10,
        act: 0,
        ..r
    }
}
