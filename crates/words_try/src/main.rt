// Words taken apart and put together (MANUAL, "Event words").
#![tactic(auto)]

ghost use Rattle.std.specs.Prelude.{◌≡◌};
ghost use Rattle.machine.specs.Words.{apart, together};
ghost use Rattle.words_try.specs.Answers.{parts, answer};

// The parts of a word in decimal, kind * 1000000 + process * 1000 + argument; or the refusal.
fn taken(word: u32) -> u64
    ensures { result ≡ parts (apart word) }
{
    match words::take_apart(word) {
        Ok(p) => (p.kind as u64) * 1000000 + (p.process as u64) * 1000 + p.argument as u64,
        Err(refusal) => u16::from(refusal) as u64,
    }
}

// The word of parts, or the refusal.
fn made(kind: u32, process: u32, argument: u32) -> u32
    ensures { result ≡ answer (together kind process argument) }
{
    match words::put_together(kind, process, argument) {
        Ok(word) => word,
        Err(refusal) => u16::from(refusal) as u32,
    }
}

fn main() {
    prove!(taken(0x2000_0000) == 2000000);
    prove!(taken(0x4000_0000) == 4000000);
    prove!(taken(0x5000_0001) == 5000001);
    prove!(taken(0x6000_0000) == 6000000);
    prove!(taken(0x0000_0000) == 8);
    prove!(taken(0x7000_0000) == 8);
    prove!(taken(0x2100_0000) == 8);
    prove!(taken(0x2000_0100) == 8);
    prove!(taken(0x2010_0000) == 9);
    prove!(made(2, 0, 0) == 0x2000_0000);
    prove!(made(5, 0, 1) == 0x5000_0001);
    prove!(made(6, 0, 0) == 0x6000_0000);
    prove!(made(7, 0, 0) == 8);
    prove!(made(0, 16, 0) == 8);
    prove!(made(2, 16, 256) == 9);
    prove!(made(2, 15, 256) == 11);
}
