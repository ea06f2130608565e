// A table in place, a slice of rows: whether it is sound, fresh tables, and sweeps over every row.
#![tactic(auto)]

ghost use Rattle.std.specs.Prelude.{◌≡◌, cond, map, ◌<◌, ◌≤◌, length};
ghost use Rattle.machine.specs.Refusals.{accepted, wrong_size, refusal_in};
ghost use Rattle.machine.specs.Tables.{competitors, handed_in, made_fresh, size_fits, table_refusal};
ghost use Rattle.machine.specs.Steps.{forgets};
ghost use Rattle.tables.specs.Writers.{has_writer};

use machine::{MOST_PROCESSES, NewTable, Refusal, Row};

// Whether a table may have n rows, or else 6: 2 to 16.
fn check_size(n: usize) -> Result<(), Refusal>
    ensures { refusal_in result ≡ cond (size_fits n) accepted wrong_size }
{
    if (n < 2) | (MOST_PROCESSES < n) {
        return Err(Refusal::WrongSize);
    }
    Ok(())
}

// Whether a table is sound, or else what refuses it: 6 or 7. A row is judged without a branch, and
// the first that does not fit ends the loop: without that return the compiler turns the loop into
// vector code that gathers single cells, and is slower. The passes of all rows are joined, and looked
// at once: row by row this takes 12 instructions more a row.
pub fn check(rows: &[Row]) -> Result<(), Refusal>
    ensures { refusal_in result ≡ table_refusal rows.now }
{
    check_size(rows.len())?;
    let n = rows.len() as u16;
    let full = rows::sound::full_set(n);
    let mut passes = [0u16; 16];
    for (q, r) in rows.iter().enumerate() {
        if !rows::sound::row_fits(n, full, q as u16, r) {
            return Err(Refusal::UnsoundRow);
        }
        let more = rows::passes::joined(passes, r.passes);
        passes = more; // tried without `more`: a call's result put in an array gets no proof
    }
    if !rows::passes::rest_clear(n, passes) {
        return Err(Refusal::UnsoundRow);
    }
    Ok(())
}

// The fresh table of n processes with every variable 0; 6 and no table for n outside 2 to 16.
pub fn fresh(n: u32) -> Result<NewTable, Refusal>
    ensures { handed_in result ≡ made_fresh n }
{
    let size = n as usize;
    check_size(size)?;
    let mut rows = [Row::BLANK; MOST_PROCESSES];
    rows[..size].fill(Row::IDLE);
    Ok(NewTable { size, rows })
}

// The set of the processes that compete. No branch: which of them do is hard for the processor to
// foresee.
pub fn competitors(rows: &[Row]) -> u16
    requires { length rows.now ≤ 16 }
    ensures { result ≡ competitors rows.now }
{
    let mut s: u16 = 0;
    for (q, r) in rows.iter().enumerate() {
        s += (rows::sound::competes(r) as u16) << q;
    }
    s
}

// Whether some process at 24 has level k: it is writing turn[k]. With any(..) in place of the loop this
// takes 1.3 to 1.7 times as long.
pub fn has_writer(rows: &[Row], k: u16) -> bool
    ensures { result ≡ has_writer k rows.now }
{
    for r in rows {
        if (r.location == 24) & (r.level == k) {
            return true;
        }
    }
    false
}

// Process p leaves every ahead set, and the passes over it are forgotten.
pub fn forget(rows: &mut [Row], p: u16)
    requires { p < 16 }
    ensures { rows.new ≡ map (forgets p) rows.old }
{
    for r in rows.iter_mut() {
        r.ahead = sets::removed(r.ahead, p);
        r.passes[p as usize] = 0;
    }
}
