// The three demands, each in the words in which it was asked, stated and proved by citing the crates below. There is no
// code here. Read proofs/One.antt, Two.antt and Three.antt (with Runs.antt, what the scanner's promises allow), then
// Cable.antt (demand 3 of our own devices, and the installer's job) and the starred cases in Cases.antt. Assumes nothing.
#![tactic(auto)]
