// What settings ask of a row (machine/specs/Settings.antt).
ghost use Rattle.std.specs.Prelude.{◌≡◌};
ghost use Rattle.machine.specs.Settings.{settings_of, flicker_forbidden};
ghost use Rattle.rows.specs.Pushing.{to_push};

use machine::{ActMemory, Memory, Row, Settings, TurnMemory};

// Whether settings of any numbers forbid FLICKER at a row where it is allowed: it writes turn at 24, and act
// elsewhere.
pub fn flicker_forbidden(settings: Settings, r: &Row) -> bool
    ensures { result ≡ flicker_forbidden settings r.now }
{
    if r.location == 24 {
        return settings.turn == 2;
    }
    settings.act == 1
}

// The same under settings that fit.
pub fn flicker_forbidden_under(memory: Memory, r: &Row) -> bool
    ensures { result ≡ flicker_forbidden (settings_of memory) r.now }
{
    if r.location == 24 {
        return memory.turn == TurnMemory::Plain;
    }
    memory.act == ActMemory::Plain
}

// Whether GO goes from 23 to 24: est has no fewer members than level, and bb is 0.
pub fn to_push(r: &Row) -> bool
    ensures { result ≡ to_push r.now }
{
    let low = sets::size(r.est) < r.level;
    (r.location == 23) & (!low & (r.bb == 0))
}
