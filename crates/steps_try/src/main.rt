// Tries the step on examples that need no image (MANUAL, "Examples"), and on each of its refusals.
// Words are given in hexadecimal; sets are printed as numbers, bit q for process q.
#![tactic(auto)]

ghost use Rattle.std.specs.Prelude.{◌≤◌};

use exclusion_code::step_all;
use machine::{Refusal, Row, Settings, Told};
use std::io;
use steps::stepping::step;

// Processes 0 and 1 of two, each led to 24 with the other in est, and a GO of each.
const BOTH_TO_24: [u32; 14] = [
    0x2000_0000,
    0x4000_0000,
    0x2001_0000,
    0x4001_0000,
    0x4000_0000,
    0x4001_0000,
    0x5000_0001,
    0x5001_0000,
    0x4000_0000,
    0x4001_0000,
    0x4000_0000,
    0x4001_0000,
    0x4000_0000,
    0x4001_0000,
];

// One more pass of each.
const ONE_PASS: [u32; 8] = [
    0x4000_0000,
    0x5000_0001,
    0x4000_0000,
    0x4000_0000,
    0x4001_0000,
    0x5001_0000,
    0x4001_0000,
    0x4001_0000,
];

// Process 0 alone, from 10 to 30: a LOOK at each other process. Of fewer than 16 processes the
// LOOKs at those that are not there are refused.
const ALONE: [u32; 21] = [
    0x2000_0000,
    0x4000_0000,
    0x4000_0000,
    0x5000_0001,
    0x5000_0002,
    0x5000_0003,
    0x5000_0004,
    0x5000_0005,
    0x5000_0006,
    0x5000_0007,
    0x5000_0008,
    0x5000_0009,
    0x5000_000a,
    0x5000_000b,
    0x5000_000c,
    0x5000_000d,
    0x5000_000e,
    0x5000_000f,
    0x4000_0000,
    0x4000_0000,
    0x4000_0000,
];

// The refusal of a step, or 0.
fn refusal_of(answer: Result<Told, Refusal>) -> u16 {
    match answer {
        Ok(_) => 0,
        Err(refusal) => refusal.into(),
    }
}

// How many words of a list the step accepts, each given in turn.
fn accepted(rows: &mut [Row], words: &[u32]) -> usize {
    words
        .iter()
        .filter(|&&word| step(rows, word, Settings::WEAKEST).is_ok())
        .count()
}

// Both led to 24 seeing each other, GO for 0, GO for 1; then one more pass each.
fn pair(rt: &impl Print) -> io::Result<()> {
    let mut rows = [Row::IDLE; 2];
    let taken = accepted(&mut rows, &BOTH_TO_24);
    println!(rt; "both to 24, words accepted {taken}")?;
    println!(rt; "turn[1] {}", rows[1].turn)?;
    println!(rt; "ahead of 0 {}", rows[0].ahead)?;
    println!(rt; "ahead of 1 {}", rows[1].ahead)?;
    step_all(&mut rows, &ONE_PASS, Settings::WEAKEST);
    println!(rt; "level of 0 {}", rows[0].level)?;
    println!(rt; "level of 1 {}", rows[1].level)?;
    println!(rt; "location of 1 {}", rows[1].location)
}

// How many words bring a lone process of a fresh table to 30; 0 where they do not.
fn alone(rows: &mut [Row]) -> usize {
    rows.fill(Row::IDLE);
    let taken = accepted(rows, &ALONE);
    match rows.first() {
        Some(r) if r.location == 30 => taken,
        _ => 0,
    }
}

// For each number of processes.
fn every_size(rt: &impl Print) -> io::Result<()> {
    let mut room = [Row::IDLE; 16];
    for n in 2..=16 {
        println!(rt; "processes {n}")?;
        println!(rt; "words to 30 {}", alone(&mut room[..n]))?;
    }
    Ok(())
}

// GO at 24 of process 1 at level 1, whose own row holds the turn cell.
fn own_turn(rt: &impl Print) -> io::Result<()> {
    let pushes = Row {
        location: 24,
        act: 1,
        level: 1,
        est: 5,
        ..Row::IDLE
    };
    let mut rows = [Row::IDLE, pushes, Row::IDLE];
    let answer = step(&mut rows, 0x4001_0000, Settings::WEAKEST);
    println!(rt; "own turn cell, refusal {}", refusal_of(answer))?;
    println!(rt; "location {}", rows[1].location)?;
    println!(rt; "bb {}", rows[1].bb)?;
    println!(rt; "est {}", rows[1].est)?;
    println!(rt; "turn[1] {}", rows[1].turn)
}

// CANCEL of process 0 at 20, with every cell of its row set to what it may hold there, and with 0 in
// the ahead set of process 1, which has passed it: the location alone changes.
fn cancels(rt: &impl Print) -> io::Result<()> {
    let mut rows = [
        Row {
            location: 20,
            act: 1,
            bb: 1,
            level: 1,
            est: 3,
            lis: 3,
            ahead: 2,
            ..Row::IDLE
        },
        Row {
            location: 21,
            act: 1,
            level: 1,
            est: 1,
            ahead: 1,
            turn: 1,
            ..Row::IDLE
        },
    ];
    rows[0].passes[1] = 65535;
    rows[1].passes[0] = 1;
    let mut was = rows;
    let answer = step(&mut rows, 0x6000_0000, Settings::WEAKEST);
    println!(rt; "cancel, refusal {}", refusal_of(answer))?;
    println!(rt; "location {}", rows[0].location)?;
    was[0].location = 40;
    if rows == was {
        println!(rt; "all else kept")?;
    }
    Ok(())
}

// Process 0 enters while process 1 competes, which is counted; 1 leaves, which clears the count.
fn passes(rt: &impl Print) -> io::Result<()> {
    let mut rows = [
        Row {
            location: 20,
            ..Row::IDLE
        },
        Row {
            location: 30,
            act: 1,
            ..Row::IDLE
        },
    ];
    step_all(&mut rows, &[0x4000_0000], Settings::WEAKEST);
    println!(rt; "passes of 0 over 1 {}", rows[0].passes[1])?;
    step_all(&mut rows, &[0x4001_0000], Settings::WEAKEST);
    println!(rt; "passes of 0 over 1 {}", rows[0].passes[1])
}

// The refusal of a word at two rows, of which the step is lent the first n; then whether both rows
// are as before.
fn refuses(rt: &impl Print, was: [Row; 2], n: usize, word: u32) -> io::Result<()>
    requires { n ≤ 2 }
{
    let mut rows = was;
    let answer = step(&mut rows[..n], word, Settings::WEAKEST);
    println!(rt; "refusal {}", refusal_of(answer))?;
    if rows == was {
        println!(rt; "rows kept")?;
    }
    Ok(())
}

// The refusal of a word under settings at two rows; then whether both rows are as before.
fn answers(rt: &impl Print, was: [Row; 2], word: u32, act: u32, turn: u32) -> io::Result<()> {
    let mut rows = was;
    let answer = step(&mut rows, word, Settings { act, turn });
    println!(rt; "under settings {}", refusal_of(answer))?;
    if rows == was {
        println!(rt; "rows kept")?;
    }
    Ok(())
}

// FLICKERs of plain cells, a second writer, settings that do not fit; and what other settings do not
// forbid.
fn settings(rt: &impl Print) -> io::Result<()> {
    let rests = Row::IDLE;
    let enters = Row {
        location: 20,
        ..Row::IDLE
    };
    let pushes = Row {
        location: 24,
        act: 1,
        level: 1,
        est: 2,
        ..Row::IDLE
    };
    let next = Row {
        location: 23,
        act: 1,
        level: 1,
        est: 1,
        ..Row::IDLE
    };
    let pushed = Row { bb: 1, ..next };
    answers(rt, [enters, rests], 0x3000_0001, 1, 0)?;
    answers(rt, [enters, rests], 0x3000_0002, 1, 0)?;
    answers(rt, [enters, rests], 0x3000_0001, 0, 2)?;
    answers(rt, [pushes, next], 0x3000_0001, 0, 2)?;
    answers(rt, [pushes, next], 0x3000_0001, 1, 1)?;
    answers(rt, [pushes, next], 0x4001_0000, 0, 1)?;
    answers(rt, [pushes, next], 0x4001_0001, 0, 1)?;
    answers(rt, [pushes, next], 0x4001_0000, 0, 2)?;
    answers(rt, [pushes, pushed], 0x4001_0000, 0, 1)?;
    answers(rt, [rests, next], 0x4001_0000, 0, 1)?;
    answers(rt, [rests, rests], 0x2000_0000, 256, 0)?;
    answers(rt, [rests, rests], 0x0000_0000, 0, 3)
}

// Every refusal but those under settings.
fn refusals(rt: &impl Print) -> io::Result<()> {
    let rests = Row::IDLE;
    let writes = Row {
        location: 20,
        ..Row::IDLE
    };
    let competes = Row {
        location: 21,
        act: 1,
        level: 1,
        est: 2,
        ..Row::IDLE
    };
    let lost = Row {
        location: 11,
        ..Row::IDLE
    };
    refuses(rt, [rests, rests], 1, 0x2000_0000)?;
    refuses(rt, [lost, rests], 2, 0x2000_0000)?;
    refuses(rt, [rests, rests], 2, 0x0000_0000)?;
    refuses(rt, [rests, rests], 2, 0x2002_0000)?;
    refuses(rt, [rests, rests], 2, 0x4000_0000)?;
    refuses(rt, [rests, rests], 2, 0x2000_0001)?;
    refuses(rt, [writes, rests], 2, 0x7000_0000)?;
    refuses(rt, [rests, rests], 2, 0x6000_0001)?;
    refuses(rt, [competes, rests], 2, 0x6000_0000)?;
    refuses(rt, [writes, rests], 2, 0x6000_0001)?;
    // the most passes over process 1, which competes: 15, and 11 before it
    let mut full = writes;
    full.passes[1] = 65535;
    refuses(rt, [full, competes], 2, 0x4000_0000)?;
    refuses(rt, [full, competes], 2, 0x4000_0001)
}

fn main(rt: HostRuntime) -> io::Result<()> {
    pair(&rt)?;
    every_size(&rt)?;
    own_turn(&rt)?;
    cancels(&rt)?;
    passes(&rt)?;
    refusals(&rt)?;
    settings(&rt)
}
