// The live line, as mathematics: what a receiver hands out over octets that come in runs of any length (02 (i)). There is no
// code here; the crate `receiver` is proved to do what these statements speak of. Assumes nothing.
#![tactic(auto)]
