#![tactic(auto)]

// Binomials, read from a table.
