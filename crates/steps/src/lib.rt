// The step of a table in place: what a word does, and what refuses it. specs/Stepping.antt says
// what the step ensures, specs/Moves.antt what the functions inside it require and ensure.
#![tactic(auto)]

pub mod going; // GO, location by location
pub mod moving; // COME, FLICKER, LOOK and CANCEL
pub mod taking; // every kind: refused, or moved
pub mod stepping; // the check of a word, and the step
pub mod system; // a sound table, step by step
