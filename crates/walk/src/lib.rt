// The walk of a scan, as mathematics: which beginnings it asks, where it ends and what it has listed then (demand 3).
// There is no code here; the crates `scan` and `scanner` are proved to do what these definitions say. Assumes nothing.
#![tactic(auto)]
