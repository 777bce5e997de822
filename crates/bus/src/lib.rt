// The whole bus, as mathematics: a row of our devices on one cable, and a master that writes lines to them (demand 3
// with no premise about hearing, and the installer's job after it). The crates below are proved to do what these
// statements speak of; the code that holds such a row in memory stands above. Assumes nothing.
#![tactic(auto)]

use record::Device;

// The most devices of a row in memory.
pub const MOST: usize = 32;

// The first `count` of the devices hang on the cable. A fixed row with a count: no heap.
#[derive(Clone, Copy)]
pub struct Row {
    pub devices: [Device; MOST],
    pub count: usize,
}
