// A scan run to its end, as mathematics: what it comes to by any answers at all, and on a bus (demand 3). There is no code
// here; these statements speak of what the crates `scan` and `scanner` are proved to do. Assumes nothing.
#![tactic(auto)]
