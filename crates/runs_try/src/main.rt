// Runs of two processes (MANUAL, "Runs"): what each answers, a line each.
#![tactic(auto)]

use machine::{Row, Settings};
use runs::RunAnswer;
use std::io;

// A number and what stands before it.
fn figure(rt: &impl Print, before: &str, n: u32) -> io::Result<()> {
    print!(rt; "{before}{n}")
}

// A number of 16 bits and what stands before it.
fn place(rt: &impl Print, before: &str, n: u16) -> io::Result<()> {
    figure(rt, before, n as u32)
}

// A run: words taken, the refusal or 0, the shared cell of the last word as access, variable and
// index, then its tally.
fn show(rt: &impl Print, name: &str, r: RunAnswer) -> io::Result<()> {
    print!(rt; "{name}")?;
    figure(rt, " taken ", r.ran.taken)?;
    figure(rt, " refusal ", r.ran.refusal)?;
    place(rt, " cell ", r.ran.cell.access)?;
    place(rt, " ", r.ran.cell.variable)?;
    place(rt, " ", r.ran.cell.index)?;
    figure(rt, " words ", r.tally.words)?;
    figure(rt, " comes ", r.tally.comes)?;
    figure(rt, " arrivals ", r.tally.arrivals)?;
    println!(rt; "")
}

// The locations of two processes.
fn locations(rt: &impl Print, rows: [Row; 2]) -> io::Result<()> {
    place(rt, "locations ", rows[0].location)?;
    place(rt, " ", rows[1].location)?;
    println!(rt; "")
}

// STAYs of process 0, up to and over the most words of a run, and none.
fn stays(rt: &impl Print) -> io::Result<()> {
    let words = [0x1000_0000; 8193];
    let mut rows = [Row::IDLE, Row::IDLE];
    show(
        rt,
        "none",
        runs::run(&mut rows, &words[..0], Settings::WEAKEST),
    )?;
    show(
        rt,
        "most",
        runs::run(&mut rows, &words[..8192], Settings::WEAKEST),
    )?;
    show(rt, "over", runs::run(&mut rows, &words, Settings::WEAKEST))
}

// Process 0 comes and goes to the critical section; the eighth word names no process.
fn arrival(rt: &impl Print) -> io::Result<()> {
    let words = [
        0x2000_0000,
        0x4000_0000,
        0x4000_0000,
        0x5000_0001,
        0x4000_0000,
        0x4000_0000,
        0x4000_0000,
        0x1002_0000,
        0x4000_0000,
    ];
    let mut rows = [Row::IDLE, Row::IDLE];
    show(
        rt,
        "arrival",
        runs::run(&mut rows, &words, Settings::WEAKEST),
    )?;
    locations(rt, rows)
}

// Process 0 comes and gives up: two words, and no event but the COME. A second CANCEL stops the run.
fn cancel(rt: &impl Print) -> io::Result<()> {
    let words = [0x2000_0000, 0x6000_0000, 0x6000_0000];
    let mut rows = [Row::IDLE, Row::IDLE];
    show(
        rt,
        "cancel",
        runs::run(&mut rows, &words, Settings::WEAKEST),
    )?;
    locations(rt, rows)
}

// Process 0 in the critical section: a word of no kind, a word not allowed and a bad argument.
fn stops(rt: &impl Print) -> io::Result<()> {
    let mut rows = [
        Row {
            location: 30,
            act: 1,
            ..Row::IDLE
        },
        Row::IDLE,
    ];
    show(
        rt,
        "kind",
        runs::run(&mut rows, &[0x7000_0000], Settings::WEAKEST),
    )?;
    show(
        rt,
        "allowed",
        runs::run(&mut rows, &[0x4000_0000, 0x1000_0000], Settings::WEAKEST),
    )?;
    show(
        rt,
        "argument",
        runs::run(&mut rows, &[0x3000_0001, 0x3000_0002], Settings::WEAKEST),
    )
}

// The last word taken reads or writes a shared cell; a refused word after it changes nothing.
fn shared(rt: &impl Print) -> io::Result<()> {
    let mut at_22 = [
        Row {
            location: 22,
            act: 1,
            level: 1,
            est: 2,
            lis: 2,
            ..Row::IDLE
        },
        Row::IDLE,
    ];
    show(
        rt,
        "looks",
        runs::run(&mut at_22, &[0x5000_0001], Settings::WEAKEST),
    )?;
    let mut at_23 = [
        Row {
            location: 23,
            act: 1,
            bb: 1,
            level: 1,
            est: 2,
            ..Row::IDLE
        },
        Row::IDLE,
    ];
    show(
        rt,
        "reconsiders",
        runs::run(&mut at_23, &[0x4000_0000], Settings::WEAKEST),
    )?;
    let mut at_24 = [
        Row {
            location: 24,
            act: 1,
            level: 1,
            est: 2,
            ..Row::IDLE
        },
        Row::IDLE,
    ];
    show(
        rt,
        "flickers",
        runs::run(&mut at_24, &[0x3000_0001, 0x1000_0000], Settings::WEAKEST),
    )
}

// Tables that are refused before any word is taken, and before the words are counted.
fn tables(rt: &impl Print) -> io::Result<()> {
    let words = [0x1000_0000; 8193];
    let mut one = [Row::IDLE];
    let mut unsound = [
        Row::IDLE,
        Row {
            location: 11,
            ..Row::IDLE
        },
    ];
    show(
        rt,
        "one row",
        runs::run(&mut one, &words[..1], Settings::WEAKEST),
    )?;
    show(
        rt,
        "unsound",
        runs::run(&mut unsound, &words[..1], Settings::WEAKEST),
    )?;
    show(
        rt,
        "unsound, over",
        runs::run(&mut unsound, &words, Settings::WEAKEST),
    )
}

// A run under settings.
fn under(
    rt: &impl Print,
    name: &str,
    rows: &mut [Row],
    words: &[u32],
    act: u32,
    turn: u32,
) -> io::Result<()> {
    show(rt, name, runs::run(rows, words, Settings { act, turn }))
}

// Process 0 at 24, process 1 at 23 of the same level: a FLICKER, then a GO from 23 to 24. Then settings
// that do not fit, before too many words and after an unsound table.
fn settings(rt: &impl Print) -> io::Result<()> {
    let words = [0x3000_0001, 0x4001_0000];
    let many = [0x1000_0000; 8193];
    let at_24 = Row {
        location: 24,
        act: 1,
        level: 1,
        est: 2,
        ..Row::IDLE
    };
    let at_23 = Row {
        location: 23,
        act: 1,
        level: 1,
        est: 1,
        ..Row::IDLE
    };
    let mut rows = [at_24, at_23];
    under(rt, "turn plain", &mut rows, &words, 0, 2)?;
    under(rt, "one writer", &mut rows, &words, 1, 1)?;
    under(rt, "act plain", &mut rows, &words, 1, 0)?;
    under(rt, "act 2", &mut rows, &many, 2, 0)?;
    let mut unsound = [
        Row::IDLE,
        Row {
            location: 11,
            ..Row::IDLE
        },
    ];
    under(rt, "unsound, turn 3", &mut unsound, &words, 0, 3)
}

fn main(rt: HostRuntime) -> io::Result<()> {
    stays(&rt)?;
    arrival(&rt)?;
    cancel(&rt)?;
    stops(&rt)?;
    shared(&rt)?;
    tables(&rt)?;
    settings(&rt)
}
