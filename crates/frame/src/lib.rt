// Frames on the line: what lies between two flags is decoded; the definitions and the laws of decoder and writer. The
// writer itself is crate writer.
// Headline: what `write` wrote decodes to what was put in, and no other line without needless escapes does
// (proofs/Trip.antt, proofs/Unique.antt). Assumes nothing of its caller.
#![tactic(auto)]

ghost use Rattle.std.specs.Prelude.{◌≡◌, ◌≤◌, false, eqb, length};
ghost use Rattle.octets.specs.Octets.{holds, last_of};
ghost use Rattle.octets.specs.Puts.{Puts};
ghost use Rattle.refusal.specs.Answer.{Hands};
ghost use Rattle.limits.specs.Limits.{limit_most, line_most};
ghost use Rattle.frame.specs.Line.{flag, escape, broken, plain};
ghost use Rattle.frame.specs.Decode.{framed, decoded};

use limits::{LIMIT_LEAST, LINE_MOST, LONGEST_LINE};
use refusal::Refusal;

// The octet at both ends of a line; the one in front of an octet that is escaped, and what that is changed by.
pub const FLAG: u8 = 0x7E;

pub const ESCAPE: u8 = 0x7D;

pub const TOGGLE: u8 = 0x20;

// Whether the last octet is an escape.
fn ends_escaped(s: &[u8]) -> bool
    ensures { result ≡ eqb (last_of 0 s.now) escape }
{
    s.last() == Some(&ESCAPE)
}

// Whether a flag lies inside `s`.
fn has_flag(s: &[u8]) -> bool
    ensures { result ≡ holds flag s.now }
{
    s.contains(&FLAG)
}

// Whether `s` is broken: a flag inside, or an escape as its last octet.
fn is_broken(s: &[u8]) -> bool
    ensures { result ≡ broken s.now }
{
    has_flag(s) || ends_escaped(s)
}

// Takes the escapes out of `s`, of which none is the last octet, into `store`.
// By an index: by an iterator decode of 78 octets, all escaped, took 23.85 instructions an octet and not 18.99, C by clang 23.73.
fn unescape(s: &[u8], store: &mut [u8]) -> usize
    requires { (length s.now ≤ length store.old) × (eqb (last_of 0 s.now) escape ≡ false) }
    ensures { Puts store.old 0 (plain s.now) result store.new }
{
    let mut n = 0;
    let mut i = 0;
    while i < s.len() {
        let b = s[i];
        i += 1;
        if b == ESCAPE {
            store[n] = s[i] ^ TOGGLE;
            n += 1;
            i += 1;
        } else {
            store[n] = b;
            n += 1;
        }
    }
    n
}

// Judges the decoded octets `d`, and hands address, control and payload out: what the decoder and the receiver say of a
// line that is whole.
pub fn deliver(limit: usize, d: &[u8], out: &mut [u8]) -> Result<usize, Refusal>
    ensures { Hands (framed limit d.now (length out.old))
        out.old result out.new }
{
    let n = d.len();
    if n < 4 {
        return Err(Refusal::TooShort);
    }
    if limit < n {
        return Err(Refusal::TooLong);
    }
    let len = n - 2;
    let check = fcs::check(&d[..len]);
    let given = octets::pair(d[len], d[n - 1]);
    if check != given {
        return Err(Refusal::WrongCheck);
    }
    refusal::hand_out(&d[..len], out)
}

// Takes the escapes out of a line that is whole, into a store of so many places, and judges what is left: the fewer there are,
// the sooner they are set to zero.
fn decode_in<const PLACES: usize>(
    limit: usize,
    src: &[u8],
    out: &mut [u8],
) -> Result<usize, Refusal>
    requires { (length src.now ≤ PLACES) × (PLACES ≤ line_most limit_most) × (eqb (last_of 0 src.now) escape ≡ false) }
    ensures { Hands (framed limit (plain src.now) (length out.old))
        out.old result out.new }
{
    let mut store = [0u8; PLACES];
    let n = unescape(src, &mut store);
    deliver(limit, &store[..n], out)
}

// Decodes what lies between two flags, with the frame limit `limit`: address, control and payload to the start of `out`.
// More octets than a line has stand for more than its limit, so that a store has room for what is left, and no octet asks
// for it.
// Inlined: else no caller's limit is a constant there, and each pays for the long store's stack.
#[inline(always)]
pub fn decode(limit: usize, src: &[u8], out: &mut [u8]) -> Result<usize, Refusal>
    ensures { Hands (decoded limit src.now (length out.old))
        out.old result out.new }
{
    if !limits::is_limit(limit) {
        return Err(Refusal::NotAllowed);
    }
    if is_broken(src) {
        return Err(Refusal::Broken);
    }
    if src.len() <= LINE_MOST {
        return decode_in::<LINE_MOST>(limit, src, out);
    }
    // Only for the compiler: a caller with the constant 78 does without the long store.
    if limit <= LIMIT_LEAST {
        return Err(Refusal::TooLong);
    }
    if LONGEST_LINE < src.len() {
        return Err(Refusal::TooLong);
    }
    decode_in::<LONGEST_LINE>(limit, src, out)
}
