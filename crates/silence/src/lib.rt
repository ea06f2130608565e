// Theorems about the machine: how many rounds it takes until some process is at 30, and that no
// fewer would do. No code.
#![tactic(auto)]
