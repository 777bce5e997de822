// The master's scanner: a new scan, and an answer reported to one. Any record of the type may be handed in.
// Assumes nothing of its caller.
#![tactic(auto)]

ghost use Rattle.std.specs.Prelude.{◌≡◌, ◌||◌, ◌*◌, ◌≤◌, ◌<◌, length, take};
ghost use Rattle.std.proofs.lemmas.List.Edits.{sets};
ghost use Rattle.refusal.specs.Answer.{Changes};
ghost use Rattle.identity.specs.Identity.{width, depth};
ghost use Rattle.walk.specs.Machine.{next, zero_half};
ghost use Rattle.scan.specs.Record.{list_most};
ghost use Rattle.scan.specs.Steps.{next_at, state_at, finished_by, in_state, going, scan_moved, noted_in};
ghost use Rattle.scan.specs.Scan.{fresh, reported};

use identity::{BITS, OCTETS};
use refusal::Refusal;
use scan::{LIST, LIST_MOST, Scan, State};

// ---- one step: the record after an answer to the beginning that is asked

// How many bits of the beginning are left once its trailing ones are dropped.
fn climb(beginning: [bool; BITS], bits: usize) -> usize
    requires { bits ≤ depth }
    ensures within { result ≤ bits }
    ensures after { next (take bits beginning) ≡ next_at beginning result }
    ensures sized { length beginning ≡ depth }
{
    for n in (0..bits).rev() {
        if !beginning[n] {
            return n + 1;
        }
    }
    0
}

// Whether the beginning is a 0 half.
fn zero_half(beginning: [bool; BITS], bits: usize) -> bool
    requires { bits ≤ depth }
    ensures { result ≡ zero_half (take bits beginning) }
{
    0 < bits && !beginning[bits - 1]
}

// Asking where probes are left, at the limit where not.
#[tactic(auto, unfolding(scan::specs::Steps::state_at))]
fn standing(count: u16, limit: u16, quiet: bool, doubt: bool) -> State
    ensures { result ≡ state_at count limit quiet doubt }
{
    if count < limit {
        return State::Asking { quiet, doubt };
    }
    State::Limit
}

// Where no probe remains.
#[tactic(auto, unfolding(scan::specs::Steps::finished_by))]
fn finished(doubt: bool) -> State
    ensures { result ≡ finished_by doubt }
{
    if doubt {
        return State::Doubtful;
    }
    State::Complete
}

// The scan in another state.
fn in_state(scan: Scan, state: State) -> Scan
    ensures { result ≡ in_state scan state }
{
    Scan { state, ..scan }
}

// The scan goes on where it stands.
fn keep_going(scan: Scan, quiet: bool, doubt: bool) -> Scan
    ensures { result ≡ going scan quiet doubt }
{
    in_state(scan, standing(scan.count, scan.limit, quiet, doubt))
}

// On at the first n bits, the last made a one; done where n is 0.
fn move_on(scan: Scan, n: usize, quiet: bool, doubt: bool) -> Scan
    requires { n ≤ depth }
    ensures { result ≡ scan_moved scan n quiet doubt }
{
    let mut s = scan;
    s.bits = n;
    if n == 0 {
        return in_state(s, finished(doubt));
    }
    s.beginning[n - 1] = true;
    keep_going(s, quiet, doubt)
}

// The list with an identity at the next free place.
fn store(list: [u8; LIST], listed: usize, name: [u8; OCTETS]) -> [u8; LIST]
    requires { listed < list_most }
    ensures value { result ≡ sets list (width * listed) name }
    ensures sized { length list ≡ width * list_most }
{
    let mut l = list;
    octets::put_all(&mut l, OCTETS * listed, &name);
    l
}

// One answer to the beginning that is asked.
fn note(scan: Scan, quiet: bool, doubt: bool, heard: bool) -> Scan
    requires { (scan.count < scan.limit) × (scan.listed ≤ list_most) × (scan.bits ≤ depth) }
    ensures { result ≡ noted_in scan quiet doubt heard }
{
    let beginning = scan.beginning;
    // What is next once all below the beginning is done: its first n bits, the last made a one.
    let n = climb(beginning, scan.bits);
    let mut s = scan;
    s.count += 1;
    if !heard {
        return move_on(s, n, zero_half(beginning, scan.bits), doubt || quiet);
    }
    if scan.bits < BITS {
        s.beginning[scan.bits] = false;
        s.bits += 1;
        return keep_going(s, false, doubt);
    }
    if scan.listed < LIST_MOST {
        s.list = store(
            scan.list,
            scan.listed,
            identity::octets_of(beginning, scan.bits),
        );
        s.listed += 1;
        return move_on(s, n, false, doubt);
    }
    in_state(s, State::Full)
}

// ---- the calls

// A scan that has asked nothing.
pub fn new(limit: u16) -> Scan
    ensures { result ≡ fresh limit }
{
    Scan {
        limit,
        count: 0,
        listed: 0,
        list: [0u8; LIST],
        bits: 0,
        beginning: [false; BITS],
        state: standing(0, limit, false, false),
    }
}

// An answer to the probe that is next: a reply was heard, garbled or whole, or none. Where it is refused, the scan is
// as it was.
pub fn report(scan: &mut Scan, heard: bool) -> Result<(), Refusal>
    ensures { Changes (reported scan.old heard) scan.old result scan.new }
{
    let State::Asking { quiet, doubt } = scan.state else {
        return Err(Refusal::ScanOver);
    };
    if scan::is_over(*scan) {
        return Err(Refusal::ScanOver);
    }
    *scan = note(*scan, quiet, doubt, heard);
    Ok(())
}
