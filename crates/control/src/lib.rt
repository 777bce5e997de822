// Control octets: the orders that they stand for, and those of answers; what an XID to the own address asks. Numbers run 0
// to 7 and round.
// Headline: the controls that 01 names are read as what they are, and no other is (proofs/Named.antt); they are read in
// crate link.
// Assumes nothing of its caller.
#![tactic(auto)]

ghost use Rattle.std.specs.Prelude.{◌≡◌};
ghost use Rattle.control.specs.Control.{next_of, info_of, rr_of};

// What a control octet with its poll bit set asks.
#[derive(Clone, Copy)]
pub enum Order {
    Xid,
    Snrm,
    Disc,
    Info { ns: u8, nr: u8 },
    Rr { nr: u8 },
    Rnr { nr: u8 },
    Unknown,
}

// Which parameters a negotiation asks, and its answer has: the lengths sent and received, the windows of sending and
// receiving.
#[derive(Clone, Copy)]
pub struct AskedFor {
    pub sent: bool,
    pub received: bool,
    pub sending: bool,
    pub receiving: bool,
}

// The control of an XID, either way.
pub const XID: u8 = 0xBF;

// The number after this one.
#[tactic(auto, unfolding(crate::specs::Control::next_of))]
pub fn next(n: u8) -> u8
    ensures { result ≡ next_of n }
{
    (n % 8 + 1) % 8
}

// The control of an I-frame with these numbers.
#[tactic(auto, unfolding(crate::specs::Control::info_of))]
pub fn info(ns: u8, nr: u8) -> u8
    ensures { result ≡ info_of ns nr }
{
    0x10 + ns % 8 * 2 + nr % 8 * 32
}

// The control of an RR with this number.
#[tactic(auto, unfolding(crate::specs::Control::rr_of))]
pub fn rr(nr: u8) -> u8
    ensures { result ≡ rr_of nr }
{
    0x11 + nr % 8 * 32
}
