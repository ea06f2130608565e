// Tries images both ways on examples (MANUAL, "Images"), and on each refusal at its place. A line
// shows what was read with refusal, place and number of processes, or what was written with the
// refusal, or a count of words.
#![tactic(auto)]

ghost use Rattle.std.specs.Prelude.{◌≤◌, ◌<◌, length};

use images::decoding::read_cells;
use images::encoding::write;
use images::reading::read;
use images::sizes::image_words;
use machine::{ImageError, Row, refusal_number};
use std::io;

// The bare fresh image of two processes.
const FRESH: [u32; 10] = [
    0x8000_0002,
    0x9000_0000,
    0xa000_0000,
    0xb000_0000,
    0xc000_0000,
    0x9001_0000,
    0xa001_0000,
    0xb001_0000,
    0xc001_0000,
    0xd001_0000,
];

// The same with the passes of each over the other, of 1 over 0 the most.
const COUNTED: [u32; 14] = [
    0x8100_0002,
    0x9000_0000,
    0xa000_0000,
    0xb000_0000,
    0xc000_0000,
    0x9001_0000,
    0xa001_0000,
    0xb001_0000,
    0xc001_0000,
    0xd001_0000,
    0xe000_0000,
    0xe001_0003,
    0xe100_ffff,
    0xe101_0000,
];

// A process with every cell at its largest, of 16, and no passes.
const LARGEST: Row = Row {
    location: 40,
    act: 1,
    bb: 1,
    level: 15,
    est: 65535,
    lis: 65535,
    ahead: 65535,
    turn: 15,
    passes: [0; 16],
};

// The first of them: row 0 holds turn 0, and has the most passes over every other process.
const LARGEST_FIRST: Row = Row {
    turn: 0,
    passes: [
        0, 65535, 65535, 65535, 65535, 65535, 65535, 65535, 65535, 65535, 65535, 65535, 65535,
        65535, 65535, 65535,
    ],
    ..LARGEST
};

// Three processes under way, with passes of each over each other.
const DEEP: [Row; 3] = [
    Row {
        location: 23,
        act: 1,
        bb: 1,
        level: 2,
        est: 6,
        lis: 0,
        ahead: 4,
        turn: 0,
        passes: [0, 1, 2, 0, 0, 0, 0, 0, 0, 0, 0, 0, 0, 0, 0, 0],
    },
    Row {
        location: 24,
        act: 1,
        bb: 0,
        level: 1,
        est: 5,
        lis: 1,
        ahead: 1,
        turn: 2,
        passes: [3, 0, 4, 0, 0, 0, 0, 0, 0, 0, 0, 0, 0, 0, 0, 0],
    },
    Row {
        location: 30,
        act: 1,
        bb: 0,
        level: 0,
        est: 3,
        lis: 2,
        ahead: 0,
        turn: 1,
        passes: [5, 65535, 0, 0, 0, 0, 0, 0, 0, 0, 0, 0, 0, 0, 0, 0],
    },
];

// ---- lines

// A space and a number below 1000.
fn put(rt: &impl Print, value: usize) -> io::Result<()> {
    print!(rt; " {value:03}")
}

fn say(rt: &impl Print, label: &str, value: usize) -> io::Result<()> {
    print!(rt; "{label}")?;
    put(rt, value)?;
    println!(rt; "")
}

// What reading answers.
fn say_read(rt: &impl Print, label: &str, words: &[u32]) -> io::Result<()> {
    let (refusal, place, size) = match read(words) {
        Ok(table) => (0, 0, table.size),
        Err(e) => (u16::from(e.refusal), e.place, 0),
    };
    print!(rt; "{label}")?;
    put(rt, refusal as usize)?;
    put(rt, place as usize)?;
    put(rt, size)?;
    println!(rt; "")
}

// The answer to the fresh image with the word at a place changed.
fn say_changed(rt: &impl Print, label: &str, place: usize, word: u32) -> io::Result<()>
    requires { place < 10 }
{
    let mut words = FRESH;
    words[place] = word;
    say_read(rt, label, &words)
}

// The answer to the image with passes with the word at a place changed.
fn say_counted(rt: &impl Print, label: &str, place: usize, word: u32) -> io::Result<()>
    requires { place < 14 }
{
    let mut words = COUNTED;
    words[place] = word;
    say_read(rt, label, &words)
}

// ---- words that stand alike

// How many words stand alike in both.
fn alike(a: &[u32], b: &[u32]) -> usize {
    a.iter().zip(b).filter(|(x, y)| x == y).count()
}

// How many processes were read, or the refusal.
fn answer_of(answer: Result<usize, ImageError>) -> usize {
    match answer {
        Ok(size) => size,
        Err(e) => u16::from(e.refusal) as usize,
    }
}

// The refusal of a write, or 0.
fn written(rows: &[Row], out: &mut [u32]) -> usize {
    refusal_number(write(rows, out)) as usize
}

// A table is written, read and written again into 340 words that held 7.
fn say_around(rt: &impl Print, label: &str, rows: &[Row]) -> io::Result<()>
    requires { length rows.now ≤ 16 }
{
    let n = rows.len();
    let all = image_words(n);
    let mut first = [7u32; 340];
    let mut again = [7u32; 340];
    let mut back = [Row::BLANK; 16];
    say(rt, label, written(rows, &mut first))?;
    say(
        rt,
        "  read",
        answer_of(read_cells(&first[..all], &mut back)),
    )?;
    say(rt, "  written again", written(&back[..n], &mut again))?;
    say(rt, "  words alike", alike(&first, &again))?;
    say(rt, "  words kept", alike(&first, &[7u32; 340]))
}

// ---- the cases

// Refusals 1 and 2.
fn headers(rt: &impl Print) -> io::Result<()> {
    say_read(rt, "fresh", &FRESH)?;
    say_read(rt, "no words", &FRESH[..0])?;
    say_read(rt, "header 80000001", &[0x8000_0001])?;
    say_read(rt, "header 80000011", &[0x8000_0011])?;
    say_read(rt, "header 80000010 alone", &[0x8000_0010])?;
    say_read(rt, "cut to 9", &FRESH[..9])?;
    say_read(rt, "with passes", &COUNTED)?;
    say_read(rt, "header 81000001", &[0x8100_0001])?;
    say_read(rt, "header 81000011", &[0x8100_0011])?;
    say_read(rt, "with passes, cut to 10", &COUNTED[..10])
}

// Refusal 3.
fn shapes(rt: &impl Print) -> io::Result<()> {
    say_changed(rt, "kind", 2, 0xb000_0000)?;
    say_changed(rt, "number", 5, 0x9000_0000)?;
    say_changed(rt, "spare bit 24", 8, 0xc101_0000)?;
    say_changed(rt, "spare bit 10", 1, 0x9000_0400)?;
    say_changed(rt, "turn word of 0", 9, 0xd000_0000)?;
    say_changed(rt, "spare bit 11 and level 2", 1, 0x9000_0802)
}

// Refusals 4 and 5.
fn ranges(rt: &impl Print) -> io::Result<()> {
    say_changed(rt, "code 8", 1, 0x9000_8000)?;
    say_changed(rt, "level 2 at 30", 5, 0x9001_6002)?;
    say_changed(rt, "est has 2", 2, 0xa000_0004)?;
    say_changed(rt, "turn 2", 9, 0xd001_0002)?;
    say_changed(rt, "22 at level 0", 1, 0x9000_3000)?;
    say_changed(rt, "30 at level 1", 5, 0x9001_6001)
}

// Refusals 3 and 4 of words with passes.
fn counts(rt: &impl Print) -> io::Result<()> {
    say_counted(rt, "passes in another order", 11, 0xe100_0000)?;
    say_counted(rt, "passes of 2", 12, 0xe200_0000)?;
    say_counted(rt, "spare bit 20", 11, 0xe011_0000)?;
    say_counted(rt, "passes over itself", 13, 0xe101_0001)
}

// Round trips: the largest table, and three processes under way.
fn round_trips(rt: &impl Print) -> io::Result<()> {
    let mut largest = [LARGEST; 16];
    largest[0] = LARGEST_FIRST;
    say_around(rt, "largest", &largest)?;
    say_around(rt, "three under way", &DEEP)
}

// Refused writes leave the lent words as they were.
fn refused_writes(rt: &impl Print) -> io::Result<()> {
    let mut lent = [7u32; 23];
    say(rt, "one row", written(&DEEP[..1], &mut lent))?;
    say(rt, "row 0 with a turn", written(&[LARGEST; 2], &mut lent))?;
    say(rt, "24 words, 23 lent", written(&DEEP, &mut lent))?;
    say(rt, "  words kept", alike(&lent, &[7u32; 23]))
}

fn main(rt: HostRuntime) -> io::Result<()> {
    headers(&rt)?;
    shapes(&rt)?;
    ranges(&rt)?;
    counts(&rt)?;
    round_trips(&rt)?;
    refused_writes(&rt)
}
