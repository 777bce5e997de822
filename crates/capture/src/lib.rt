// Theorems about the salvage of a capture (no code): whatever calls take its octets, what is written, listed and counted is
// what 02 (vii) says of the whole capture; every place counts once; what was kept is read again; and a capture without
// damage comes out whole. Assumes nothing.
#![tactic(auto)]
