// Sets, and fresh tables by value (MANUAL, "The functions of the crates"): what each answers, a line
// each.
#![tactic(auto)]

use machine::{MOST_PROCESSES, NewTable, Row};
use std::io;
use tables::fresh;

// A number and a space before it.
fn put(rt: &impl Print, n: u16) -> io::Result<()> {
    print!(rt; " {n}")
}

// A set and a process: whether it is a member, the number of members, the set without it, the lowest
// member.
fn show_set(rt: &impl Print, s: u16, q: u16) -> io::Result<()> {
    print!(rt; "set")?;
    put(rt, s)?;
    put(rt, q)?;
    print!(rt; ":")?;
    put(rt, sets::has(s, q) as u16)?;
    put(rt, sets::size(s))?;
    put(rt, sets::without(s, q))?;
    match sets::lowest_member(s) {
        Some(lowest) => put(rt, lowest)?,
        None => print!(rt; " none")?,
    }
    println!(rt; "")
}

// The cells of a row.
fn show_row(rt: &impl Print, r: &Row) -> io::Result<()> {
    print!(rt; ", row")?;
    put(rt, r.location)?;
    put(rt, r.act)?;
    put(rt, r.bb)?;
    put(rt, r.level)?;
    put(rt, r.est)?;
    put(rt, r.lis)?;
    put(rt, r.ahead)?;
    put(rt, r.turn)
}

// A fresh table: refusal, place, size, and its first, second, third and last row. Where it is refused
// there is no place and no row.
fn show_fresh(rt: &impl Print, n: u32) -> io::Result<()> {
    let none = NewTable {
        size: 0,
        rows: [Row::BLANK; MOST_PROCESSES],
    };
    let (refusal, t) = match fresh(n) {
        Ok(t) => (0, t),
        Err(refusal) => (refusal.into(), none),
    };
    print!(rt; "fresh")?;
    put(rt, refusal)?;
    put(rt, 0)?;
    put(rt, t.size as u16)?;
    show_row(rt, &t.rows[0])?;
    show_row(rt, &t.rows[1])?;
    show_row(rt, &t.rows[2])?;
    show_row(rt, &t.rows[15])?;
    println!(rt; "")
}

fn main(rt: HostRuntime) -> io::Result<()> {
    show_set(&rt, 0, 0)?;
    show_set(&rt, 1, 0)?;
    show_set(&rt, 32769, 15)?;
    show_set(&rt, 32768, 14)?;
    show_set(&rt, 65535, 16)?;
    show_set(&rt, 65535, 65535)?;
    show_fresh(&rt, 1)?;
    show_fresh(&rt, 2)?;
    show_fresh(&rt, 16)?;
    show_fresh(&rt, 17)?;
    show_fresh(&rt, 4294967295)
}
