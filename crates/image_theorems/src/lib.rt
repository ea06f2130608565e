// Theorems about images: what is written is read back, and reading accepts exactly what is written,
// and the bare images of tables without passes.
#![tactic(auto)]
