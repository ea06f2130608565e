// What a step does to one row, and what it asks of one: a Row goes in and comes out.
#![tactic(auto)]

mod masks; // sets of locations
pub mod passes; // its counts of passes
pub mod sound; // within its ranges; competing
pub mod codes; // locations as images have them
pub mod kinds; // what each kind of word asks
pub mod moves; // what each step makes of a row
pub mod settings; // what settings ask
