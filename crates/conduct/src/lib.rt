// How a device behaves over its frames, as mathematics: what each frame can change, and when (demand 2). There is no code
// here; the crate `link` is proved to do what these statements speak of. Assumes nothing.
#![tactic(auto)]
