// Identities, and beginnings as octets. Assumes nothing of its caller.
#![tactic(auto)]

ghost use Rattle.std.specs.Prelude.{◌≡◌, false, ◌≤◌, ◌↔◌, take, drop, get_or, slice_index, IsTrue, EachIndex};
ghost use Rattle.identity.specs.Bits.{word, digit};
ghost use Rattle.identity.specs.Identity.{depth, blank, last_printable, allowed_identity, octets_of};

// The octets of the vendor, at the start of an identity.
pub const VENDOR: usize = 2;

// The octets of the shortest identity: 1 of the serial number.
const LEAST: usize = VENDOR + 1;

// The octets of a padded identity, and its bits.
pub const OCTETS: usize = 19;

pub const BITS: usize = 8 * OCTETS;

// The blank that an identity is padded with, and the last octet that it may have.
pub const BLANK: u8 = 0x20;

const LAST_PRINTABLE: u8 = 0x7E;

// Whether every octet is 0x20 to 0x7E.
fn all_printable(s: &[u8]) -> bool
    ensures { IsTrue result
        ↔ EachIndex s.now (λ k. (blank ≤ slice_index s.now k) × (slice_index s.now k ≤ last_printable)) }
{
    s.iter().all(|x| (BLANK..=LAST_PRINTABLE).contains(x))
}

// Whether these octets are an identity: 2 of the vendor, 1 to 17 of the serial number, the last not 0x20.
pub fn allowed(identity: &[u8]) -> bool
    ensures { result ≡ allowed_identity identity.now }
{
    let n = identity.len();
    if n < LEAST || OCTETS < n {
        return false;
    }
    identity[n - 1] != BLANK && all_printable(identity)
}

// A bit of the beginning as a number; one past its end is a zero.
fn bit(beginning: &[bool; BITS], bits: usize, at: usize) -> u8
    requires { bits ≤ depth }
    ensures { result ≡ digit (get_or (take bits beginning.now) at false) }
{
    u8::from(at < bits && beginning[at])
}

// Eight bits of the beginning as an octet, the most significant first.
fn octet(beginning: &[bool; BITS], bits: usize, from: usize) -> u8
    requires { (bits ≤ depth) × (from ≤ depth) }
    ensures { result ≡ word (drop from (take bits beginning.now)) 8 }
{
    let mut x: u8 = 0;
    for i in 0..8 {
        x = 2 * x + bit(beginning, bits, from + i);
    }
    x
}

// The beginning, so many bits of a row, as octets, zeros behind it.
// The row and its bits are two, as in a scan's record: one type more would be taken apart at each use.
pub fn octets_of(beginning: [bool; BITS], bits: usize) -> [u8; OCTETS]
    ensures { result ≡ octets_of (take bits beginning) }
{
    let count = bits.min(BITS);
    let mut octets = [0u8; OCTETS];
    for (j, x) in octets.iter_mut().enumerate() {
        *x = octet(&beginning, count, 8 * j);
    }
    octets
}
