// The declared types and constants of the engine, and setters of what a step tells. What they mean
// is said in specs/.
#![tactic(auto)]

ghost use Rattle.std.specs.Prelude.{◌≡◌};
ghost use Rattle.machine.specs.Shared.{act_read, act_written, turn_read, turn_written};
ghost use Rattle.machine.specs.Steps.{quiet, with_event, with_cell};
ghost use Rattle.machine.specs.Refusals.{number, numbered, refusal_in};
ghost use Rattle.machine.specs.Words.{kind_in, kinds_in};
ghost use Rattle.machine.specs.Settings.{fitting, settings_in};

// One process: its location (program counter), its shared flag act, its private variables, its
// history set ahead, the shared cell turn[k] in the row of process k, and its passes, the history
// counts a[q, r] of section 4.1 of the paper in the row of process q: how often q entered while r
// competed.
#[repr(C)]
#[derive(Clone, Copy, Debug, PartialEq, Eq)]
pub struct Row {
    pub location: u16,
    pub act: u16,
    pub bb: u16,
    pub level: u16,
    pub est: u16,
    pub lis: u16,
    pub ahead: u16,
    pub turn: u16,
    pub passes: [u16; 16],
}

impl Row {
    // A process that rests, with every variable 0.
    pub const IDLE: Row = Row {
        location: 10,
        act: 0,
        bb: 0,
        level: 0,
        est: 0,
        lis: 0,
        ahead: 0,
        turn: 0,
        passes: [0u16; 16],
    };

    // No process: what stands past a table's end.
    pub const BLANK: Row = Row {
        location: 0,
        act: 0,
        bb: 0,
        level: 0,
        est: 0,
        lis: 0,
        ahead: 0,
        turn: 0,
        passes: [0u16; 16],
    };
}

// The eight locations, by their codes 0 to 7 in an image.
pub const LOCATIONS: [u16; 8] = [10, 20, 21, 22, 23, 24, 30, 40];

// The kinds of word allowed at each of LOCATIONS, as a set: bit k stands for kind k.
pub const ALLOWED: [u16; 8] = [6, 88, 16, 48, 16, 24, 16, 24];

// The kinds of event word, by their numbers.
#[derive(Clone, Copy, Debug, PartialEq, Eq)]
pub enum Kind {
    Stay = 1,
    Come = 2,
    Flicker = 3,
    Go = 4,
    Look = 5,
    Cancel = 6,
}

impl TryFrom<u32> for Kind {
    type Error = Refusal;

    ghost try_from_gives = { λ n r. numbered (kinds_in r) ≡ kind_in n };

    fn try_from(number: u32) -> Result<Kind, Refusal> {
        match number {
            1 => Ok(Kind::Stay),
            2 => Ok(Kind::Come),
            3 => Ok(Kind::Flicker),
            4 => Ok(Kind::Go),
            5 => Ok(Kind::Look),
            6 => Ok(Kind::Cancel),
            _ => Err(Refusal::BadKind),
        }
    }
}

// The most processes of a table.
pub const MOST_PROCESSES: usize = 16;

// The most words of a run.
pub const RUN_LIMIT: usize = 8192;

// The largest count of passes.
pub const COUNT_LIMIT: u16 = 65535;

// The first word of an image, less the number of processes; and of a bare image, which has no passes.
pub const HEADER: u32 = 0x8100_0000;

pub const BARE_HEADER: u32 = 0x8000_0000;

// The most words and bytes of an image.
pub const IMAGE_WORDS: usize = 5 * MOST_PROCESSES + MOST_PROCESSES * MOST_PROCESSES;

pub const IMAGE_BYTES: usize = 4 * IMAGE_WORDS;

// The most words and bytes of an input: an image and the words of a run.
pub const INPUT_WORDS: usize = IMAGE_WORDS + RUN_LIMIT;

pub const INPUT_BYTES: usize = 4 * INPUT_WORDS;

// Room for the bytes of every text.
pub const TEXT_BYTES: usize = 180260;

// The refusals; specs/Refusals.antt says what each means, and its number.
#[derive(Clone, Copy, Debug, PartialEq, Eq)]
pub enum Refusal {
    NoHeader = 1,
    WrongLength = 2,
    Malformed = 3,
    OutOfRange = 4,
    LevelMisfit = 5,
    WrongSize = 6,
    UnsoundRow = 7,
    BadKind = 8,
    NoProcess = 9,
    NotAllowed = 10,
    BadArgument = 11,
    TooManyWords = 12,
    TooFewLent = 13,
    BadBytes = 14,
    PassesFull = 15,
    PlainFlicker = 16,
    SecondWriter = 17,
    BadSettings = 18,
}

impl From<Refusal> for u16 {
    ghost from_gives = { λ e n. n ≡ number e };

    fn from(refusal: Refusal) -> u16 {
        refusal as u16
    }
}

// As C gets an answer without a value: 0, or the number of the refusal.
pub fn refusal_number(answer: Result<(), Refusal>) -> u16
    ensures { result ≡ refusal_in answer }
{
    match answer {
        Ok(()) => 0,
        Err(refusal) => refusal.into(),
    }
}

// The memory settings of a step or of a run as a caller gives them: any two numbers.
#[derive(Clone, Copy, Debug, PartialEq, Eq)]
pub struct Settings {
    pub act: u32,
    pub turn: u32,
}

impl Settings {
    // Act safe and turn write-safe: they forbid nothing.
    pub const WEAKEST: Settings = Settings { act: 0, turn: 0 };
}

// What act does while it is written.
#[derive(Clone, Copy, Debug, PartialEq, Eq)]
pub enum ActMemory {
    Safe,
    Plain,
}

// What turn does while it is written.
#[derive(Clone, Copy, Debug, PartialEq, Eq)]
pub enum TurnMemory {
    WriteSafe,
    OneWriter,
    Plain,
}

// Settings that fit.
#[derive(Clone, Copy, Debug, PartialEq, Eq)]
pub struct Memory {
    pub act: ActMemory,
    pub turn: TurnMemory,
}

impl Memory {
    // Act safe and turn write-safe: they forbid nothing.
    pub const WEAKEST: Memory = Memory {
        act: ActMemory::Safe,
        turn: TurnMemory::WriteSafe,
    };
}

impl TryFrom<Settings> for Memory {
    type Error = Refusal;

    ghost try_from_gives = { λ s r. numbered (settings_in r) ≡ fitting s };

    fn try_from(settings: Settings) -> Result<Memory, Refusal> {
        let act = match settings.act {
            0 => ActMemory::Safe,
            1 => ActMemory::Plain,
            _ => return Err(Refusal::BadSettings),
        };
        let turn = match settings.turn {
            0 => TurnMemory::WriteSafe,
            1 => TurnMemory::OneWriter,
            2 => TurnMemory::Plain,
            _ => return Err(Refusal::BadSettings),
        };
        Ok(Memory { act, turn })
    }
}

// The parts of an event word.
#[derive(Clone, Copy, Debug, PartialEq, Eq)]
pub struct Parts {
    pub kind: Kind,
    pub process: u16,
    pub argument: u16,
}

// What refuses an image, and the place of the word that it is about.
#[derive(Clone, Copy, Debug, PartialEq, Eq)]
pub struct ImageError {
    pub refusal: Refusal,
    pub place: u16,
}

// The event of an accepted word: a COME, an arrival at 30, a departure from 30, or none of these.
#[derive(Clone, Copy, Debug, PartialEq, Eq)]
pub enum Event {
    Quiet,
    Come,
    Arrival,
    Departure,
}

// The shared cell that a step used: whether it was read or written, whether it is an act or a turn
// cell, and its index; all 0 where it used none.
#[repr(C)]
#[derive(Clone, Copy, Debug, PartialEq, Eq)]
pub struct SharedCell {
    pub access: u16,
    pub variable: u16,
    pub index: u16,
}

// The accesses, and the shared variables; 0 is none of them.
pub const READ: u16 = 1;

pub const WRITTEN: u16 = 2;

pub const ACT: u16 = 1;

pub const TURN: u16 = 2;

impl SharedCell {
    pub const NONE: SharedCell = SharedCell {
        access: 0,
        variable: 0,
        index: 0,
    };
}

// What a step tells of an accepted word.
#[derive(Clone, Copy, Debug, PartialEq, Eq)]
pub struct Told {
    pub event: Event,
    pub cell: SharedCell,
}

impl Told {
    // There is nothing to tell.
    pub const QUIET: Told = Told {
        event: Event::Quiet,
        cell: SharedCell::NONE,
    };

    // The same but for the event.
    pub fn with_event(self, event: Event) -> Told
        ensures { result ≡ with_event event self }
    {
        Told { event, ..self }
    }

    // The same but for the shared cell.
    pub fn with_cell(self, cell: SharedCell) -> Told
        ensures { result ≡ with_cell cell self }
    {
        Told { cell, ..self }
    }

    // There is nothing to tell but the shared cell.
    fn used(access: u16, variable: u16, index: u16) -> Told
        ensures { result ≡ with_cell (record { access = access; variable = variable; index = index }) quiet }
    {
        Told::QUIET.with_cell(SharedCell {
            access,
            variable,
            index,
        })
    }

    // The act of process q was read.
    pub fn act_read(q: u16) -> Told
        ensures { result ≡ with_cell (act_read q) quiet }
    {
        Told::used(READ, ACT, q)
    }

    // The act of process q was written.
    pub fn act_written(q: u16) -> Told
        ensures { result ≡ with_cell (act_written q) quiet }
    {
        Told::used(WRITTEN, ACT, q)
    }

    // The cell turn[k] was read.
    pub fn turn_read(k: u16) -> Told
        ensures { result ≡ with_cell (turn_read k) quiet }
    {
        Told::used(READ, TURN, k)
    }

    // The cell turn[k] was written.
    pub fn turn_written(k: u16) -> Told
        ensures { result ≡ with_cell (turn_written k) quiet }
    {
        Told::used(WRITTEN, TURN, k)
    }
}

// The tally of a run, its counters: words taken, COMEs, arrivals at 30.
#[repr(C)]
#[derive(Clone, Copy, Debug, PartialEq, Eq)]
pub struct Tally {
    pub words: u32,
    pub comes: u32,
    pub arrivals: u32,
}

impl Tally {
    pub const ZERO: Tally = Tally {
        words: 0,
        comes: 0,
        arrivals: 0,
    };
}

// The answer of a run: how many words were taken, the refusal or 0, and the shared cell of the last
// word taken.
#[repr(C)]
#[derive(Clone, Copy, Debug, PartialEq, Eq)]
pub struct Ran {
    pub taken: u32,
    pub refusal: u32,
    pub cell: SharedCell,
}

// The answer of a step to C: the refusal or 0, and the shared cell that the word used.
#[repr(C)]
#[derive(Clone, Copy, Debug, PartialEq, Eq)]
pub struct StepAnswer {
    pub refusal: u16,
    pub cell: SharedCell,
}

// The answer of rounds: the refusal or 0, how many rounds were done, and whether some process is at 30
// in the table as left: 1, or 0 where none is.
#[repr(C)]
#[derive(Clone, Copy, Debug, PartialEq, Eq)]
pub struct RoundsAnswer {
    pub refusal: u16,
    pub rounds: u16,
    pub occupied: u16,
}

// The answer of taking a word apart to C: the refusal or 0, and the parts; these are 0 where the word
// is refused.
#[repr(C)]
#[derive(Clone, Copy, Debug, PartialEq, Eq)]
pub struct PartsAnswer {
    pub refusal: u16,
    pub kind: u16,
    pub process: u16,
    pub argument: u16,
}

// The answer of putting a word together to C: the refusal or 0, and the word, which is 0 where there
// is none.
#[repr(C)]
#[derive(Clone, Copy, Debug, PartialEq, Eq)]
pub struct WordAnswer {
    pub refusal: u32,
    pub word: u32,
}

// The answer of reading an image into lent rows to C: the refusal or 0, the place of the word that it
// is about, and how many rows are the table; 0 where it is refused.
#[repr(C)]
#[derive(Clone, Copy, Debug, PartialEq, Eq)]
pub struct ReadAnswer {
    pub refusal: u16,
    pub place: u16,
    pub size: u16,
}

// The census, the counts of a table, for each k from 0 to N; what stands past N is 0. Where the table is
// refused there are no figures: all are 0.
#[repr(C)]
#[derive(Clone, Copy, Debug, PartialEq, Eq)]
pub struct Census {
    pub refusal: u16,
    pub critical: u16,
    pub waiting: u16,
    pub below: [u16; 17],
    pub held: [u16; 17],
}

// A whole new table handed back by value: its rows are the first `size` of `rows`, and those after
// them are blank.
#[derive(Clone, Copy, Debug, PartialEq, Eq)]
pub struct NewTable {
    pub size: usize,
    pub rows: [Row; 16],
}
