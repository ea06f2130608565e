// Whether a row is within its ranges, and whether its process competes (machine/specs/Tables.antt).
ghost use Rattle.std.specs.Prelude.{◌≡◌, ◌&&◌, ◌≤◌, get_or};
ghost use Rattle.machine.specs.Tables.{one_of, locations, level_fits, competes};
ghost use Rattle.rows.specs.Bounds.{Full, RowFits};

use crate::masks::{fitting, marked};
use machine::Row;

// The set of all n processes.
pub fn full_set(n: u16) -> u16
    requires { n ≤ 16 }
    ensures { Full n result }
{
    ((1u32 << n) - 1) as u16
}

// Whether location l is one of the eight and level v goes with it. Each level above 0 is as 1 here, and
// the mask of a constant level is a constant.
#[tactic(auto, using(crate::proofs::MaskLaws::level_tests))]
pub fn location_fits(l: u16, v: u16) -> bool
    ensures { result ≡ (one_of l locations && level_fits l v) }
{
    if v == 0 {
        return marked(fitting(0), l);
    }
    marked(fitting(1), l)
}

// The count of passes of process q over itself; 0 for a q of 16 or more.
fn own_passes(q: u16, r: &Row) -> u16
    ensures { result ≡ get_or r.now.passes q 0 }
{
    if q < 16 { r.passes[q as usize] } else { 0 }
}

// Whether row q of a table of n processes is within its ranges, but for its passes over processes
// that are not there. `full` is the set of all n.
pub fn row_fits(n: u16, full: u16, q: u16, r: &Row) -> bool
    requires { Full n full }
    ensures { RowFits n q r.now result }
{
    ((r.act | r.bb) < 2)
        & (r.level < n)
        & ((r.est | r.lis | r.ahead) <= full)
        & (r.turn < n)
        & ((q != 0) | (r.turn == 0))
        & location_fits(r.location, r.level)
        & (own_passes(q, r) == 0)
}

// Whether a process competes, at locations 21 to 30.
pub fn competes(r: &Row) -> bool
    ensures { result ≡ competes r.now }
{
    (21 <= r.location) & (r.location <= 30)
}
