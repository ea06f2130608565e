// Theorems about the machine: at most k processes are held for every k, and at most one is at 30. No code.
#![tactic(auto)]
