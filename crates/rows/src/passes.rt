// The sixteen counts of passes of a row (machine/specs/Tables.antt, Steps.antt). Each function is one
// loop over all of them, by arithmetic on 16 bits, which the compiler turns into vector code: with tests
// the check of a table takes four times as long.
ghost use Rattle.std.specs.Prelude.{◌≡◌, true, ◌≤◌};
ghost use Rattle.machine.specs.Steps.{raised, raisable};
ghost use Rattle.rows.specs.Passes.{Clear, Joined};

use machine::COUNT_LIMIT;

// The counts of two rows joined, one by one.
pub fn joined(a: [u16; 16], b: [u16; 16]) -> [u16; 16]
    ensures { Joined a b result }
{
    let mut c = [0u16; 16];
    for i in 0..16 {
        c[i] = a[i] | b[i];
    }
    c
}

// Whether the counts over processes that are not below n are 0.
#[tactic(auto, using(crate::proofs::PassLaws::joining))]
pub fn rest_clear(n: u16, a: [u16; 16]) -> bool
    requires { n ≤ 16 }
    ensures { Clear n a result }
{
    let mut any: u16 = 0;
    for i in 0..16 {
        any |= a[i] * ((i as u16 + 16 - n) / 16);
    }
    any == 0
}

// Whether no count passes 65,535 with one more over each process in the set c.
#[tactic(auto, using(crate::proofs::PassLaws::joining))]
pub fn raisable(c: u16, a: [u16; 16]) -> bool
    ensures { result ≡ raisable c a }
{
    let mut any: u16 = 0;
    for i in 0..16 {
        any |= (a[i] / COUNT_LIMIT) * ((c >> i) % 2);
    }
    any == 0
}

// The counts with one more over each process in the set c.
#[tactic(auto, using(crate::proofs::PassLaws::raising, machine::proofs::PassLaws::raisable_at))]
pub(crate) fn raised(c: u16, a: [u16; 16]) -> [u16; 16]
    requires { raisable c a ≡ true }
    ensures { result ≡ raised c a }
{
    let mut b = [0u16; 16];
    for i in 0..16 {
        b[i] = a[i] + (c >> i) % 2;
    }
    b
}
