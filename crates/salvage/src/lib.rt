// Salvage of a damaged capture: octets come in runs of any length through the live receiver; the raw octets of each stretch
// that it reads go to an output with flags around them, and each stretch that is left out is told of at the flag behind
// it: where it began, how long it was, and its number. The record is `Salvage`, the receiver's lent store, and the lent
// raw octets of the open stretch.
// Headline: over a capture of any length, however it is cut, what comes out is what 02 says (crate capture).
// Assumes nothing of its caller: any record of the type may be handed in.
#![tactic(auto)]

ghost use Rattle.std.specs.Prelude.{Ok, ◌≡◌, ◌+◌, ◌<◌, ◌≤◌, min, true, not, ◌&&◌, length, nat_lt};
ghost use Rattle.std.proofs.lemmas.List.Edits.{sets};
ghost use Rattle.octets.specs.Puts.{Puts};
ghost use Rattle.refusal.specs.Answer.{gives};
ghost use Rattle.limits.specs.Limits.{is_limit};
ghost use Rattle.salvage.specs.Holding.{holding_of, Workable, raw_most, fresh_salvage, grown_by};
ghost use Rattle.salvage.specs.Holding.{first_flag, kept_octets};
ghost use Rattle.salvage.specs.Work.{works, salvaged, end_verdict, emptied, finished, spare_most, Salvages, Finishes};
ghost use Rattle.salvage.specs.Pieces.{handed_verdict, passed_verdict, heard_verdict, stops_at, reach_of, before_flag};
ghost use Rattle.salvage.specs.Pieces.{written_by, Gathers, sound_by, listed_by, goes_until, parts_of, GathersAny};
ghost use Rattle.salvage.specs.Pieces.{followed, begun_by, counted_by, settled_by};

use frame::FLAG;
use limits::{LIMIT_MOST, LONGEST_FRAME};
use receiver::{PLACES, Receiver};
use refusal::Refusal;

// The most raw octets of a stretch that the receiver reads: each octet of the longest frame escaped.
pub const RAW: usize = 2 * LIMIT_MOST;

// What a call may write beside its run: the raw octets that are held, and the first flag.
pub const SPARE: usize = RAW + 1;

// The octets since the last flag, or since the start.
#[derive(Clone, Copy)]
pub struct OpenStretch {
    // their place in the capture
    pub offset: u64,
    // how many they are
    pub length: u64,
    // how many of them are held
    pub held: usize,
}

// Counts of what lies before the open stretch.
#[derive(Clone, Copy)]
pub struct Totals {
    pub frames: u64,
    // their octets, as they stood
    pub kept: u64,
    pub flags: u64,
    // what was left out, and its octets
    pub stretches: u64,
    pub dropped: u64,
}

#[derive(Clone, Copy)]
pub struct Salvage {
    pub receiver: Receiver,
    pub stretch: OpenStretch,
    // the first flag is written
    pub begun: bool,
    pub totals: Totals,
}

// What was left out. Its number is the receiver's, or 0 before the first flag and after the last.
#[derive(Clone, Copy)]
pub struct Stretch {
    pub offset: u64,
    pub length: u64,
    pub number: u8,
}

// A call that is not refused: how many octets were taken, how many stand at the start of the output, and the stretch that the
// octet taken last closed, where it is left out.
#[derive(Clone, Copy)]
pub struct Salvaged {
    pub taken: usize,
    pub written: usize,
    pub left_out: Option<Stretch>,
}

// What becomes of the open stretch: it is still open; it ends without an octet, is kept, or left out with a number.
#[derive(Clone, Copy)]
pub enum Verdict {
    Still,
    Empty,
    Kept,
    Dropped(u8),
}

// The octets up to and with the next flag, or all: the stretch with them, how many, and what becomes of it.
#[derive(Clone, Copy)]
pub struct Gathered {
    stretch: OpenStretch,
    taken: usize,
    verdict: Verdict,
}

// The record before any octet.
pub fn new() -> Salvage
    ensures { result ≡ fresh_salvage }
{
    Salvage {
        receiver: receiver::new(),
        stretch: OpenStretch {
            offset: 0,
            length: 0,
            held: 0,
        },
        begun: false,
        totals: Totals {
            frames: 0,
            kept: 0,
            flags: 0,
            stretches: 0,
            dropped: 0,
        },
    }
}

// The open stretch with these octets more, of which as many are held as there are places for.
#[tactic(auto, unfolding(crate::specs::Holding::grown_by, crate::specs::Holding::add64))]
fn hold(stretch: OpenStretch, run: &[u8], raw: &mut [u8]) -> OpenStretch
    requires { stretch.held ≤ raw_most }
    ensures { (result ≡ grown_by (length run.now) stretch)
        × (raw.new ≡ sets raw.old stretch.held run.now) }
{
    let held = stretch.held;
    octets::put_all(raw, held, run);
    OpenStretch {
        offset: stretch.offset,
        length: stretch.length.wrapping_add(run.len() as u64),
        held: held + run.len().min(RAW - held),
    }
}

// The one that is open behind it: the same where it is still open, or the one behind `n` flags.
#[tactic(auto, unfolding(crate::specs::Pieces::followed, crate::specs::Holding::onward_from, crate::specs::Holding::add64))]
fn follow(stretch: OpenStretch, verdict: Verdict, n: u64) -> OpenStretch
    ensures { result ≡ followed n verdict stretch }
{
    if let Verdict::Still = verdict {
        return stretch;
    }
    OpenStretch {
        offset: stretch.offset.wrapping_add(stretch.length).wrapping_add(n),
        length: 0,
        held: 0,
    }
}

// Whether the first flag is written: with the first stretch that is kept.
#[tactic(auto, unfolding(crate::specs::Pieces::begun_by))]
fn begin(begun: bool, verdict: Verdict) -> bool
    ensures { result ≡ begun_by verdict begun }
{
    begun || matches!(verdict, Verdict::Kept)
}

// The counts with a stretch of `length` octets that is over, and `n` flags behind it.
#[tactic(auto, unfolding(crate::specs::Pieces::counted_by, crate::specs::Pieces::flags_added, crate::specs::Holding::tallied, crate::specs::Holding::add64))]
fn tally(totals: Totals, length: u64, verdict: Verdict, n: u64) -> Totals
    ensures { result ≡ counted_by n totals length verdict }
{
    let mut t = totals;
    match verdict {
        Verdict::Still => t,
        Verdict::Empty => {
            t.flags = t.flags.wrapping_add(n);
            t
        }
        Verdict::Kept => {
            t.frames = t.frames.wrapping_add(1);
            t.kept = t.kept.wrapping_add(length);
            t.flags = t.flags.wrapping_add(n);
            t
        }
        Verdict::Dropped(_) => {
            t.flags = t.flags.wrapping_add(n);
            t.stretches = t.stretches.wrapping_add(1);
            t.dropped = t.dropped.wrapping_add(length);
            t
        }
    }
}

// The record behind an open stretch, whatever becomes of it, and `n` flags behind it: the receiver stays.
#[tactic(auto, unfolding(crate::specs::Pieces::settled_by))]
fn settle(salvage: &mut Salvage, stretch: OpenStretch, verdict: Verdict, n: u64)
    ensures { salvage.new ≡ settled_by n verdict salvage.old.receiver stretch salvage.old }
{
    salvage.stretch = follow(stretch, verdict, n);
    salvage.begun = begin(salvage.begun, verdict);
    salvage.totals = tally(salvage.totals, stretch.length, verdict, n);
}

// What becomes of a stretch of which the receiver handed something out.
fn judge(handed: Result<usize, Refusal>) -> Verdict
    ensures { result ≡ handed_verdict handed }
{
    match handed {
        Ok(_) => Verdict::Kept,
        Err(refusal) => Verdict::Dropped(refusal::number(refusal)),
    }
}

// What becomes of a stretch of which it handed out nothing.
fn pass(length: u64) -> Verdict
    ensures { result ≡ passed_verdict length }
{
    if length == 0 {
        return Verdict::Empty;
    }
    Verdict::Dropped(0)
}

// What becomes of the open stretch, by what was handed out at a flag, or before one.
fn decide(handed: &Option<Result<usize, Refusal>>, closed: bool, length: u64) -> Verdict
    ensures { result ≡ heard_verdict handed.now closed length }
{
    match *handed {
        None => {
            if closed {
                return pass(length);
            }
            Verdict::Still
        }
        Some(handed) => judge(handed),
    }
}

// Whether the receiver itself stops behind the next flag: one that closes octets.
#[tactic(auto, unfolding(crate::specs::Pieces::stops_at))]
fn stops(receiver: Receiver, run: &[u8]) -> bool
    requires { 0 < length run.now }
    ensures { result ≡ stops_at receiver run.now }
{
    receiver.seen && (receiver.any || run[0] != FLAG)
}

// How many octets the receiver is lent, so that it takes them up to and with the next flag, or all.
#[tactic(auto, unfolding(crate::specs::Pieces::reach_of))]
fn reach(receiver: Receiver, run: &[u8]) -> usize
    requires { 0 < length run.now }
    ensures { result ≡ reach_of receiver run.now }
{
    if stops(receiver, run) {
        return run.len();
    }
    octets::find(FLAG, run).saturating_add(1).min(run.len())
}

// Of so many octets those before a flag that is the last.
#[tactic(auto, unfolding(crate::specs::Pieces::before_flag))]
fn without_flag(run: &[u8], taken: usize) -> usize
    requires { (0 < taken) × (taken ≤ length run.now) }
    ensures { result ≡ before_flag run.now taken }
{
    let last = taken - 1;
    if run[last] == FLAG {
        return last;
    }
    taken
}

// Takes the octets up to and with the next flag, or all, and holds the raw ones before it.
fn gather(
    receiver: &mut Receiver,
    stretch: OpenStretch,
    limit: usize,
    run: &[u8],
    store: &mut [u8],
    raw: &mut [u8],
    frame: &mut [u8; LONGEST_FRAME],
) -> Result<Gathered, Refusal>
    requires { Workable (parts_of receiver.old stretch store.old raw.old) × (is_limit limit ≡ true) × (0 < length run.now) }
    ensures { GathersAny limit receiver.old stretch store.old raw.old run.now result
        receiver.new store.new raw.new }
{
    let lent = reach(*receiver, run);
    let received = receiver::receive_in(receiver, limit, octets::part(run, 0, lent), store, frame)?;
    let taken = received.taken;
    let n = without_flag(run, taken);
    let grown = hold(stretch, octets::part(run, 0, n), raw);
    Ok(Gathered {
        stretch: grown,
        taken,
        verdict: decide(&received.handed, n < taken, grown.length),
    })
}

// The first flag, where it is not written yet.
#[tactic(auto, unfolding(crate::specs::Holding::first_flag))]
fn put_first(begun: bool, out: &mut [u8], at: usize) -> usize
    requires { at < length out.old }
    ensures { Puts out.old at (first_flag begun) result out.new }
{
    if begun {
        return at;
    }
    out[at] = FLAG;
    at + 1
}

// The raw octets of a stretch that is kept, with a flag behind it.
fn keep(begun: bool, held: usize, raw: &[u8], out: &mut [u8], at: usize) -> usize
    requires { (held ≤ length raw.now) × (at + length (kept_octets begun held raw.now) ≤ length out.old) }
    ensures { Puts out.old at (kept_octets begun held raw.now) result out.new }
{
    let first = put_first(begun, out, at);
    octets::put_all(out, first, octets::part(raw, 0, held));
    let end = first + held;
    octets::put(out, end, FLAG);
    end + 1
}

// What is written of the open stretch.
fn write_kept(
    verdict: Verdict,
    begun: bool,
    held: usize,
    raw: &[u8],
    out: &mut [u8],
    at: usize,
) -> usize
    requires { (held ≤ length raw.now) × (at + length (written_by verdict begun held raw.now) ≤ length out.old) }
    ensures { Puts out.old at (written_by verdict begun held raw.now) result out.new }
{
    if let Verdict::Kept = verdict {
        return keep(begun, held, raw, out, at);
    }
    at
}

// What is told of a stretch that is over.
#[tactic(auto, unfolding(crate::specs::Pieces::listed_by))]
fn list(stretch: OpenStretch, verdict: Verdict) -> Option<Stretch>
    ensures { result ≡ listed_by stretch verdict }
{
    if let Verdict::Dropped(number) = verdict {
        return Some(Stretch {
            offset: stretch.offset,
            length: stretch.length,
            number,
        });
    }
    None
}

// How far the call goes: a stretch that is left out is the last.
#[tactic(auto, unfolding(crate::specs::Pieces::goes_until))]
fn until(verdict: Verdict, at: usize, end: usize) -> usize
    ensures { result ≡ goes_until verdict at end }
{
    if let Verdict::Dropped(_) = verdict {
        return at;
    }
    end
}

// Works through the run, a stretch a turn: up to and with the first flag that closes one that is left out, or to its end.
// By a place: a turn takes what the receiver takes, and the answer tells the place; an iterator is no plainer.
fn work(
    salvage: &mut Salvage,
    limit: usize,
    run: &[u8],
    store: &mut [u8],
    raw: &mut [u8],
    out: &mut [u8],
) -> Result<Salvaged, Refusal>
    requires { Workable (holding_of salvage.old store.old raw.old) × (is_limit limit ≡ true)
        × (spare_most + length run.now ≤ length out.old) }
    ensures { Salvages (gives (works limit (holding_of salvage.old store.old raw.old)
        run.now)) (holding_of salvage.old store.old raw.old) out.old result
        (holding_of salvage.new store.new raw.new) out.new }
{
    let mut frame = [0u8; LONGEST_FRAME];
    // A copy, which the compiler keeps at hand: what is lent would be stored anew behind every flag.
    let mut held = *salvage;
    let mut left_out = None;
    let mut end = run.len();
    let mut at = 0;
    let mut put = 0;
    while at < end {
        let gathered = gather(
            &mut held.receiver,
            held.stretch,
            limit,
            &run[at..],
            store,
            raw,
            &mut frame,
        )?;
        let verdict = gathered.verdict;
        at += gathered.taken;
        put = write_kept(verdict, held.begun, gathered.stretch.held, raw, out, put);
        left_out = list(gathered.stretch, verdict);
        end = until(verdict, at, end);
        settle(&mut held, gathered.stretch, verdict, 1);
    }
    *salvage = held;
    Ok(Salvaged {
        taken: at,
        written: put,
        left_out,
    })
}

// Whether the numbers of a record are in their bounds.
#[tactic(auto, unfolding(crate::specs::Pieces::sound_by))]
fn is_sound(count: usize, held: usize) -> bool
    ensures { result ≡ sound_by count held }
{
    count <= PLACES && held <= RAW
}

// The same, and a limit that is one.
fn is_allowed(limit: usize, count: usize, held: usize) -> bool
    ensures { result ≡ is_limit limit && sound_by count held }
{
    limits::is_limit(limit) && is_sound(count, held)
}

// Whether an output has room for what is held, the first flag and a run.
fn has_room(out: usize, run: usize) -> bool
    ensures { result ≡ not (nat_lt out (spare_most + run)) }
{
    SPARE <= out && run <= out - SPARE
}

// Octets of a capture: takes them up to and with the first flag that closes a stretch left out, and tells how many.
pub fn read(
    salvage: &mut Salvage,
    limit: usize,
    run: &[u8],
    store: &mut [u8; PLACES],
    raw: &mut [u8; RAW],
    out: &mut [u8],
) -> Result<Salvaged, Refusal>
    ensures { Salvages (salvaged limit (holding_of salvage.old store.old raw.old)
        run.now (length out.old))
        (holding_of salvage.old store.old raw.old) out.old result
        (holding_of salvage.new store.new raw.new) out.new }
{
    if !is_allowed(limit, salvage.receiver.count, salvage.stretch.held) {
        return Err(Refusal::NotAllowed);
    }
    if !has_room(out.len(), run.len()) {
        return Err(Refusal::NoRoom);
    }
    work(salvage, limit, run, store, raw, out)
}

// The record behind all octets: nothing is open, as before any octet; the counts stay.
fn emptied(salvage: Salvage, verdict: Verdict) -> Salvage
    requires { verdict ≡ end_verdict salvage }
    ensures { result ≡ emptied verdict salvage }
{
    let mut left = salvage;
    left.receiver = receiver::new();
    settle(&mut left, salvage.stretch, verdict, 0);
    left
}

// The last call, behind all octets: what stands behind the last flag, or the whole where there is none, is left out.
pub fn finish(salvage: &mut Salvage) -> Result<Option<Stretch>, Refusal>
    ensures { Finishes (finished salvage.old) salvage.old result salvage.new }
{
    if !is_sound(salvage.receiver.count, salvage.stretch.held) {
        return Err(Refusal::NotAllowed);
    }
    let verdict = pass(salvage.stretch.length);
    let left_out = list(salvage.stretch, verdict);
    *salvage = emptied(*salvage, verdict);
    Ok(left_out)
}
