// The receiver of the live line: octets come in runs of any length, each frame or its number goes out at the flag that
// closes it. The record is `Receiver` and its lent store.
// Headline: what it hands out is what the decoder says of each stretch between two flags, however the octets are cut
// (crate live). Assumes nothing of its caller: any record of the type may be handed in.
#![tactic(auto)]

ghost use Rattle.std.specs.Prelude.{◌≡◌, Ok, not, ◌&&◌, ◌<◌, eqb, length, take};
ghost use Rattle.refusal.specs.Answer.{gives, Hands};
ghost use Rattle.frame.specs.Line.{escape};
ghost use Rattle.receiver.specs.Held.{Usable, held_of, fresh_marks, open_marks, stretched, stretch_says};
ghost use Rattle.receiver.specs.Call.{takes, received, Receives};
ghost use Rattle.receiver.specs.Pieces.{Plain, Copies};

use frame::{ESCAPE, FLAG, TOGGLE};
use limits::LIMIT_MOST;
use refusal::Refusal;

// The places of the store: one for each octet of the longest frame.
pub const PLACES: usize = LIMIT_MOST;

// What is held of the stretch since the last flag, beside the decoded octets in the store.
// The count stands apart from the lent store: fixed memory of the caller's, and any record may be handed in.
#[derive(Clone, Copy)]
pub struct Receiver {
    // how many of them
    pub count: usize,
    // more came than the store has places
    pub more: bool,
    // an escape is open
    pub escaping: bool,
    // the last raw octet was 0x7D
    pub last: bool,
    // a raw octet came
    pub any: bool,
    // a flag was seen at all
    pub seen: bool,
}

// A call that is not refused: how many octets were taken, and what the flag that was taken last handed out, if anything.
#[derive(Clone, Copy)]
pub struct Received {
    pub taken: usize,
    pub handed: Option<Result<usize, Refusal>>,
}

// The record before any octet.
pub fn new() -> Receiver
    ensures { result ≡ fresh_marks }
{
    Receiver {
        count: 0,
        more: false,
        escaping: false,
        last: false,
        any: false,
        seen: false,
    }
}

// The record right behind a flag.
fn opened() -> Receiver
    ensures { result ≡ open_marks }
{
    let mut r = new();
    r.seen = true;
    r
}

// Whether `b` is an escape: behind one it is not.
fn opens(escaping: bool, b: u8) -> bool
    ensures { result ≡ (not escaping && eqb b escape) }
{
    !escaping && b == ESCAPE
}

// Copies octets of `s` into `store` from `at` on, up to a flag or an escape, of which the first is neither, and tells how many.
fn copy(s: &[u8], store: &mut [u8], at: usize) -> usize
    requires { (0 < length s.now) × (at < length store.old) × Plain (take 1 s.now) }
    ensures { Copies s.now store.old at result store.new }
{
    let most = s.len().min(store.len() - at);
    for i in 0..most {
        let b = s[i];
        if b == FLAG || b == ESCAPE {
            return i;
        }
        store[at + i] = b;
    }
    most
}

// What is handed out where a flag closes the stretch.
fn close(limit: usize, receiver: Receiver, store: &[u8], out: &mut [u8]) -> Result<usize, Refusal>
    requires { Usable (held_of receiver store.now) }
    ensures { Hands (stretch_says limit (length out.old) (held_of receiver store.now))
        out.old result out.new }
{
    if receiver.last {
        return Err(Refusal::Broken);
    }
    if receiver.more {
        return Err(Refusal::TooLong);
    }
    let n = receiver.count;
    frame::deliver(limit, &store[..n], out)
}

// Whether a flag closes a stretch that has octets.
fn closing(receiver: Receiver) -> bool
    ensures { result ≡ stretched receiver }
{
    receiver.seen && receiver.any
}

fn told(taken: usize, handed: Option<Result<usize, Refusal>>) -> Received
    ensures { result ≡ record { taken = taken; handed = handed } }
{
    Received { taken, handed }
}

// Works through the run: up to and with the first flag that hands something out, or to its end. Most octets stand for
// themselves: those are copied as many at once as there are.
// By a place: a turn takes one octet or a whole copied run, and the answer tells the place; an iterator is no plainer.
fn listen(
    receiver: &mut Receiver,
    limit: usize,
    run: &[u8],
    store: &mut [u8],
    out: &mut [u8],
) -> Received
    requires { Usable (held_of receiver.old store.old) }
    ensures { Receives (gives (takes limit (length out.old)
        (held_of receiver.old store.old) run.now))
        (held_of receiver.old store.old) out.old (Ok result)
        (held_of receiver.new store.new) out.new }
{
    let mut at = 0;
    while at < run.len() {
        let b = run[at];
        if b == FLAG {
            at += 1;
            if closing(*receiver) {
                let handed = close(limit, *receiver, store, out);
                *receiver = opened();
                return told(at, Some(handed));
            }
            *receiver = opened();
        } else if !receiver.seen {
            at += 1;
        } else {
            let n = receiver.count;
            receiver.any = true;
            receiver.last = b == ESCAPE;
            if opens(receiver.escaping, b) {
                receiver.escaping = true;
                at += 1;
            } else if n == PLACES {
                receiver.escaping = false;
                receiver.more = true;
                at += 1;
            } else if receiver.escaping {
                receiver.escaping = false;
                store[n] = b ^ TOGGLE;
                receiver.count = n + 1;
                at += 1;
            } else {
                let taken = copy(&run[at..], store, n);
                receiver.count = n + taken;
                at += taken;
            }
        }
    }
    told(at, None)
}

// As `receive`, over a store that is part of something larger: any other number of places is no receiver's.
pub fn receive_in(
    receiver: &mut Receiver,
    limit: usize,
    run: &[u8],
    store: &mut [u8],
    out: &mut [u8],
) -> Result<Received, Refusal>
    ensures { Receives (received limit (held_of receiver.old store.old) run.now
        (length out.old))
        (held_of receiver.old store.old) out.old result
        (held_of receiver.new store.new) out.new }
{
    if !limits::is_limit(limit) {
        return Err(Refusal::NotAllowed);
    }
    if store.len() != PLACES {
        return Err(Refusal::NotAllowed);
    }
    if PLACES < receiver.count {
        return Err(Refusal::NotAllowed);
    }
    if out.len() < limits::frame_most(limit) {
        return Err(Refusal::NoRoom);
    }
    Ok(listen(receiver, limit, run, store, out))
}

// Octets received: takes them up to and with the first flag that hands something out, and tells how many.
pub fn receive(
    receiver: &mut Receiver,
    limit: usize,
    run: &[u8],
    store: &mut [u8; PLACES],
    out: &mut [u8],
) -> Result<Received, Refusal>
    ensures { Receives (received limit (held_of receiver.old store.old) run.now
        (length out.old))
        (held_of receiver.old store.old) out.old result
        (held_of receiver.new store.new) out.new }
{
    receive_in(receiver, limit, run, store, out)
}
