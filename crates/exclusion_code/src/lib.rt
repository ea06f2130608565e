// Mutual exclusion of the code that runs (demand 3): a whole list of words handed to the step.
#![tactic(auto)]

ghost use Rattle.exclusion_code.specs.Lists.{Listed};

use machine::{Row, Settings};
use steps::system::{System, fitting};

// Hands every word of a list to the step under settings, in order, going on past refused words. The
// table and the settings are checked once: a sound table stays sound, and an unsound one refuses every
// word, as settings do that do not fit.
pub fn step_all(rows: &mut [Row], words: &[u32], settings: Settings)
    ensures { Listed settings rows.old words.now rows.new }
{
    if let Ok(memory) = fitting(rows, settings) {
        let mut system = System::new(rows, memory);
        for &word in words {
            let _ = system.advance(word);
        }
    }
}
