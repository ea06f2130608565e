// Rounds (MANUAL, "Rounds"): what they answer, a line each. First the longest silence of each number of
// processes, then rounds that are not done, refused, used up or broken.
#![tactic(auto)]

use machine::{RoundsAnswer, Row, Settings};
use std::io;

// COME of each of sixteen processes.
const COMES: [u32; 16] = [
    0x2000_0000,
    0x2001_0000,
    0x2002_0000,
    0x2003_0000,
    0x2004_0000,
    0x2005_0000,
    0x2006_0000,
    0x2007_0000,
    0x2008_0000,
    0x2009_0000,
    0x200a_0000,
    0x200b_0000,
    0x200c_0000,
    0x200d_0000,
    0x200e_0000,
    0x200f_0000,
];

// A row at a location with act, bb, level and est, and so many passes over process 0.
fn row(location: u16, act: u16, bb: u16, level: u16, est: u16, over: u16) -> Row {
    let mut passes = [0u16; 16];
    passes[0] = over;
    Row {
        location,
        act,
        bb,
        level,
        est,
        passes,
        ..Row::IDLE
    }
}

// A number and what stands before it.
fn figure(rt: &impl Print, before: &str, n: u16) -> io::Result<()> {
    print!(rt; "{before}{n}")
}

// An answer: the refusal or 0, the rounds done, and 1 where some process is at 30.
fn show(rt: &impl Print, a: RoundsAnswer) -> io::Result<()> {
    figure(rt, " refusal ", a.refusal)?;
    figure(rt, " rounds ", a.rounds)?;
    figure(rt, " occupied ", a.occupied)?;
    println!(rt; "")
}

// Rounds from fresh rows of n processes, once each has come.
fn longest(rt: &impl Print, n: u16, comes: &[u32], rows: &mut [Row]) -> io::Result<()> {
    let _ran = runs::run(rows, comes, Settings::WEAKEST);
    figure(rt, "processes ", n)?;
    show(rt, rounds::rounds(rows))
}

// So of 2 to 16 processes.
fn longest_of_each(rt: &impl Print) -> io::Result<()> {
    for n in 2..=16 {
        let mut rows = [Row::IDLE; 16];
        longest(rt, n as u16, &COMES[..n], &mut rows[..n])?;
    }
    Ok(())
}

// Rounds from two rows.
fn from(rt: &impl Print, name: &str, first: Row, second: Row) -> io::Result<()> {
    let mut rows = [first, second];
    print!(rt; "{name}")?;
    show(rt, rounds::rounds(&mut rows))?;
    figure(rt, "locations ", rows[0].location)?;
    figure(rt, " ", rows[1].location)?;
    println!(rt; "")
}

// Rounds that are not done, or refused.
fn not_done(rt: &impl Print) -> io::Result<()> {
    from(
        rt,
        "at 30 before",
        row(20, 0, 0, 0, 0, 0),
        row(30, 1, 0, 0, 0, 0),
    )?;
    from(rt, "nobody", row(40, 1, 0, 0, 0, 0), Row::IDLE)?;
    from(rt, "unsound", row(20, 2, 0, 0, 0, 0), Row::IDLE)?;
    let mut one = [Row::IDLE];
    longest(rt, 1, &COMES[..1], &mut one)
}

fn main(rt: HostRuntime) -> io::Result<()> {
    longest_of_each(&rt)?;
    from(
        &rt,
        "within a round",
        row(21, 1, 0, 0, 0, 0),
        row(20, 0, 0, 0, 0, 0),
    )?;
    // no list of words makes this table: process 1 rests and shows act
    from(
        &rt,
        "used up",
        row(21, 1, 1, 1, 2, 0),
        row(10, 1, 0, 0, 0, 0),
    )?;
    not_done(&rt)?;
    from(
        &rt,
        "broken",
        row(20, 0, 0, 0, 0, 0),
        row(20, 0, 0, 0, 0, 65535),
    )?;
    from(
        &rt,
        "broken at 30",
        row(21, 1, 0, 0, 0, 0),
        row(20, 0, 0, 0, 0, 65535),
    )?;
    from(
        &rt,
        "room for one",
        row(20, 0, 0, 0, 0, 0),
        row(20, 0, 0, 0, 0, 65534),
    )?;
    // nobody competes whom process 1 would pass
    from(&rt, "nobody to pass", Row::IDLE, row(20, 0, 0, 0, 0, 65535))
}
