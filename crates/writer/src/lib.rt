// The writer of frames: address, control, payload and check, with their escapes, between two flags.
// Headline: what `write` wrote is the line that frame/specs/Write.antt says, or a refusal changes nothing; what lies
// between its flags decodes to what was put in (frame/proofs/Trip.antt). Assumes nothing of its caller.
#![tactic(auto)]

ghost use Rattle.std.specs.Prelude.{◌≡◌, ◌∷◌, ◌+◌, ◌≤◌, length};
ghost use Rattle.octets.specs.Puts.{Puts};
ghost use Rattle.refusal.specs.Answer.{Hands, handed_out, shorter};
ghost use Rattle.limits.specs.Limits.{limit_most};
ghost use Rattle.frame.specs.Line.{special, escaped, on_line, between};
ghost use Rattle.frame.specs.Write.{frame_of, line_of, written};

use frame::{ESCAPE, FLAG, TOGGLE};
use limits::{AROUND, LIMIT_LEAST, LIMIT_MOST, PAYLOAD_MOST};
use refusal::Refusal;

// Whether `b` is escaped on the line.
fn is_special(b: u8) -> bool
    ensures { result ≡ special b }
{
    b == FLAG || b == ESCAPE
}

// Puts `b`, escaped where it has to be, into `line` at `at`, and gives the place behind it.
fn put_octet(b: u8, line: &mut [u8], at: usize) -> usize
    requires { at + length (escaped b) ≤ length line.old }
    ensures { Puts line.old at (escaped b) result line.new }
{
    let mut n = at;
    let mut x = b;
    if is_special(b) {
        line[n] = ESCAPE;
        n += 1;
        x = b ^ TOGGLE;
    }
    line[n] = x;
    n + 1
}

// Puts the octets of `d`, with their escapes, into `line` at `at`, and gives the place behind them.
fn put_rest(d: &[u8], line: &mut [u8], at: usize) -> usize
    requires { at + length (on_line d.now) ≤ length line.old }
    ensures { Puts line.old at (on_line d.now) result line.new }
{
    let mut n = at;
    for &b in d {
        n = put_octet(b, line, n);
    }
    n
}

// Puts flag, `d` with its escapes, flag into `line`: four octets a turn, and what is left one by one.
fn put_between(d: &[u8], line: &mut [u8]) -> usize
    requires { length (between d.now) ≤ length line.old }
    ensures { Puts line.old 0 (between d.now) result line.new }
{
    line[0] = FLAG;
    let (fours, rest) = d.as_chunks::<4>();
    let mut n = 1;
    for four in fours {
        n = put_rest(four, line, n);
    }
    let end = put_rest(rest, line, n);
    line[end] = FLAG;
    end + 1
}

// Puts address, control, payload and their check into `d`.
fn assemble(address: u8, control: u8, payload: &[u8], d: &mut [u8]) -> usize
    requires { length payload.now + 4 ≤ length d.old }
    ensures { Puts d.old 0 (frame_of address control payload.now) result d.new }
{
    octets::put(d, 0, address);
    octets::put(d, 1, control);
    octets::put_all(d, 2, payload);
    let n = payload.len() + 2;
    let [low, high] = fcs::check(&d[..n]).to_le_bytes();
    octets::put(d, n, low);
    octets::put(d, n + 1, high);
    n + 2
}

// Whether `room` octets are too few for the line of `d`: escapes are counted only where the longest line has no room.
// The count ends at the first one too many; of one to the end the compiler would make 48 octets of constants.
fn is_short(d: &[u8], room: usize) -> bool
    requires { length d.now ≤ limit_most }
    ensures { result ≡ shorter room (between d.now) }
{
    if 2 * d.len() + 2 <= room {
        return false;
    }
    let mut len = d.len() + 2;
    for &b in d {
        if is_special(b) {
            len += 1;
            if room < len {
                return true;
            }
        }
    }
    room < len
}

// Hands the line of `d` out, escaped straight into `out`.
fn hand_line(d: &[u8], out: &mut [u8]) -> Result<usize, Refusal>
    requires { length d.now ≤ limit_most }
    ensures { Hands (handed_out (between d.now) (length out.old))
        out.old result out.new }
{
    if is_short(d, out.len()) {
        return Err(Refusal::NoRoom);
    }
    Ok(put_between(d, out))
}

// Writes a frame that a store of so many places has room for: the fewer there are, the sooner they are set to zero. The compiler
// knows how many.
fn write_in<const PLACES: usize>(
    address: u8,
    control: u8,
    payload: &[u8],
    out: &mut [u8],
) -> Result<usize, Refusal>
    requires { (length payload.now + 4 ≤ PLACES) × (PLACES ≤ limit_most) }
    ensures { Hands (handed_out (line_of (address ∷ control ∷ payload.now)) (length out.old))
        out.old result out.new }
{
    let mut d = [0u8; PLACES];
    let n = assemble(address, control, payload, &mut d);
    hand_line(&d[..n], out)
}

// Writes flag, frame, flag to the start of `out`, with the frame limit `limit`.
pub fn write(
    limit: usize,
    address: u8,
    control: u8,
    payload: &[u8],
    out: &mut [u8],
) -> Result<usize, Refusal>
    ensures { Hands (written limit address control payload.now (length out.old))
        out.old result out.new }
{
    if !limits::is_limit(limit) {
        return Err(Refusal::NotAllowed);
    }
    if payload.len() <= PAYLOAD_MOST {
        return write_in::<LIMIT_LEAST>(address, control, payload, out);
    }
    // Only for the compiler: a caller with the constant 78 does without the long store.
    if limit <= LIMIT_LEAST {
        return Err(Refusal::PayloadTooLong);
    }
    if limit - AROUND < payload.len() {
        return Err(Refusal::PayloadTooLong);
    }
    write_in::<LIMIT_MOST>(address, control, payload, out)
}
