// A scan's record, and the probe that is next. The record goes in by value; any record of the type may be handed in.
// The definitions and laws of the whole scanner are here, its other calls in `scanner`. Assumes nothing of its caller.
#![tactic(auto)]

ghost use Rattle.std.specs.Prelude.{◌≡◌, length, take};
ghost use Rattle.identity.specs.Bits.{ones};
ghost use Rattle.identity.specs.Identity.{octets_of};
ghost use Rattle.refusal.specs.Answer.{Hands};
ghost use Rattle.scan.specs.Scan.{over, probe_of, probed};

use identity::{BITS, OCTETS};
use refusal::Refusal;

// How many identities the list holds, and their octets.
pub const LIST_MOST: usize = 32;

pub const LIST: usize = OCTETS * LIST_MOST;

// The length in front of a value and of its mask.
const WIDTH: u8 = OCTETS as u8;

// The octets of a probe, and where in it the value, the mask's head and the mask stand.
pub const PROBE: usize = 47;

const VALUE: usize = 7;

const HEAD: usize = VALUE + OCTETS;

const MASK: usize = HEAD + 2;

// Asking: the 0 half just before was silent; some heard beginning had both halves silent. Or one of the four ends.
#[derive(Clone, Copy)]
pub enum State {
    Asking { quiet: bool, doubt: bool },
    Complete,
    Doubtful,
    Limit,
    Full,
}

// The limit and the count of the probes answered, the identities listed, the beginning that is asked or named.
// Fixed rows with their counts: no heap, and any record of the type may be handed in.
#[derive(Clone, Copy)]
pub struct Scan {
    pub limit: u16,
    pub count: u16,
    pub listed: usize,
    pub list: [u8; LIST],
    pub bits: usize,
    pub beginning: [bool; BITS],
    pub state: State,
}

// Whether the record takes no probe and no answer: the row of the number 7.
pub fn is_over(scan: Scan) -> bool
    ensures { result ≡ over scan }
{
    let state = scan.state;
    let State::Asking { quiet: _, doubt: _ } = state else {
        return true;
    };
    if scan.limit <= scan.count {
        return true;
    }
    if LIST_MOST < scan.listed {
        return true;
    }
    BITS < scan.bits
}

// Ones over a beginning of so many bits, zeros behind it.
fn mask_of(bits: usize) -> [u8; OCTETS]
    ensures { result ≡ octets_of (ones bits) }
{
    identity::octets_of([true; BITS], bits)
}

// The octets of the probe of a beginning.
fn probe_of(beginning: [bool; BITS], bits: usize) -> [u8; PROBE]
    ensures { result ≡ probe_of (take bits beginning) }
{
    let mut probe = [0u8; PROBE];
    octets::put_all(&mut probe, 0, &[0xFF, 0xBF, 0x81, 0xF0, 0x2A, 1, WIDTH]);
    octets::put_all(&mut probe, VALUE, &identity::octets_of(beginning, bits));
    octets::put_all(&mut probe, HEAD, &[3, WIDTH]);
    octets::put_all(&mut probe, MASK, &mask_of(bits));
    probe
}

// The probe that is next, at the start of the lent output. Asking changes nothing in the scan.
pub fn probe(scan: Scan, out: &mut [u8]) -> Result<usize, Refusal>
    ensures { Hands (probed scan (length out.old)) out.old result out.new }
{
    if is_over(scan) {
        return Err(Refusal::ScanOver);
    }
    let beginning = scan.beginning;
    let octets = probe_of(beginning, scan.bits);
    refusal::hand_out(&octets, out)
}
