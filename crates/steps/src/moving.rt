// COME, FLICKER, LOOK and CANCEL of a process, where they are allowed, and what they tell. STAY
// does nothing.
//
// Rows and process stay two parameters: a struct that holds the rows would name their borrow in each clause, where
// `Ready` says in one word what a move needs, and the table is not sound again before the move is done.
ghost use Rattle.machine.specs.Words.{COME, FLICKER, LOOK, CANCEL};
ghost use Rattle.steps.specs.Moves.{Ready, Free, Sees, Moves};

use machine::{Event, Row, Told};

// COME of process p: to 20.
pub(crate) fn come(rows: &mut [Row], p: u16) -> Told
    requires { Ready rows.old p }
    ensures { Moves rows.old COME p 0 rows.new result }
{
    rows[p as usize].location = 20;
    Told::QUIET.with_event(Event::Come)
}

// FLICKER of process p: at 24 the turn cell of its level becomes `a`, elsewhere its act.
pub(crate) fn flicker(rows: &mut [Row], p: u16, a: u16) -> Told
    requires { Free rows.old FLICKER p }
    ensures { Moves rows.old FLICKER p a rows.new result }
{
    let r = &rows[p as usize];
    if r.location == 24 {
        let level = r.level;
        rows[level as usize].turn = a;
        return Told::turn_written(level);
    }
    rows[p as usize].act = a;
    Told::act_written(p)
}

// LOOK of process p at q.
pub fn look(rows: &mut [Row], p: u16, q: u16) -> Told
    requires { Sees rows.old p q }
    ensures { Moves rows.old LOOK p q rows.new result }
{
    let act = rows[q as usize].act;
    let r = rows[p as usize];
    rows[p as usize] = rows::moves::looked(q, act, r);
    Told::act_read(q)
}

// CANCEL of process p: to 40, where its act is still what the last FLICKER left.
pub(crate) fn cancel(rows: &mut [Row], p: u16) -> Told
    requires { Ready rows.old p }
    ensures { Moves rows.old CANCEL p 0 rows.new result }
{
    rows[p as usize].location = 40;
    Told::QUIET
}
