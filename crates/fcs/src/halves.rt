// The table of 16 sixteen-bit remainders: entry x is the remainder of x by bitwise division, 4 bits on.
// That every entry is so is one computed test (proofs/by_halves), by a law of proofs/Rule.antt.
pub const REMAINDERS: [u16; 16] = [
    0x0000, 0x1081, 0x2102, 0x3183, 0x4204, 0x5285, 0x6306, 0x7387, 0x8408, 0x9489, 0xA50A, 0xB58B,
    0xC60C, 0xD68D, 0xE70E, 0xF78F,
];
