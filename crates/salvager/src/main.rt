// The program of `./salvage CAPTURE GOOD [N]`: opens, reads in runs, writes and prints; what is kept and what is listed is the
// library's (`salvage`). GOOD is written beside its name, and gets it when it is whole. The last line on standard output says
// how it ended: the counts, `failed` or `refused`; in the last two cases a sentence stands on standard error.
// Of what is read and written no promise can speak: but for the number among its words (specs/), all here is proved safe and
// ending, and .ci/captures holds what it does to the second program.
#![tactic(auto)]

mod words;

use limits::LIMIT_MOST;
use receiver::PLACES;
use salvage::{OpenStretch, RAW, SPARE, Salvage, Stretch, Totals};
use std::fs::File;
use std::io::{IsTerminal, Read, Write};
use std::{env, fs, io};

// Octets read at a time, and the output that the library asks for such a run.
const RUN: usize = 65536;

const ROOM: usize = RUN + SPARE;

// Runs from one progress line to the next: 268 MB.
const SOON: u64 = 4096;

// What has failed, CAPTURE, GOOD or the list, and why.
#[derive(Drop)]
enum Failure {
    Unread(io::Error),
    Unwritten(io::Error),
    Unlisted(io::Error),
}

// ---- what is said

// A stretch that was left out, as a line of the list.
fn list(rt: &impl Print, stretch: Stretch) -> io::Result<()> {
    let offset = stretch.offset;
    let length = stretch.length;
    let number = stretch.number;
    println!(rt; "{offset} {length} {number}")
}

// The last line, where all went well.
fn say_totals(rt: &impl Print, totals: Totals, octets: u64) -> io::Result<()> {
    let frames = totals.frames;
    let kept = totals.kept;
    let flags = totals.flags;
    let stretches = totals.stretches;
    let dropped = totals.dropped;
    println!(rt;
        "kept {frames} frames {kept} octets, {flags} flags, dropped {stretches} stretches {dropped} octets, of {octets}"
    )
}

// A sentence about a file, with the system's reason, and how it ended. Whether anyone reads the sentence changes nothing.
fn fail(
    rt: &(impl Print + Eprint),
    name: &str,
    what: &str,
    reason: &io::Error,
    end: &str,
) -> io::Result<()> {
    let _ = eprintln!(rt; "salvage: {name} {what}: {reason}");
    rt.println(end)
}

// A sentence about the words, and how it ended.
fn refuse(rt: &(impl Print + Eprint), sentence: &str) -> io::Result<()> {
    let _ = eprintln!(rt; "salvage: {sentence}");
    rt.println("refused")
}

// How far it is, at a terminal.
fn tell(rt: &HostRuntime, turn: u64, stretch: OpenStretch) {
    if turn % SOON != SOON - 1 {
        return;
    }
    if !rt.stderr().is_terminal() {
        return;
    }
    let read = std::num::wrapping_add_u64(stretch.offset, stretch.length) / 1000000;
    let _ = eprintln!(rt; "salvage: {read} MB read");
}

// ---- the work

// What runs are worked through with: the library's state, the room that it is lent, and GOOD.
#[derive(Drop)]
struct Sieve {
    limit: usize,
    good: File,
    salvage: Salvage,
    store: [u8; PLACES],
    raw: [u8; RAW],
    out: [u8; ROOM],
}

impl Sieve {
    fn new(limit: usize, good: File) -> Self {
        Self {
            limit,
            good,
            salvage: salvage::new(),
            store: [0u8; PLACES],
            raw: [0u8; RAW],
            out: [0u8; ROOM],
        }
    }

    // Works through a run: what a call writes goes to GOOD, and what it leaves out is listed.
    fn sift(&mut self, rt: &impl Print, run: &[u8]) -> Result<(), Failure> {
        let mut rest = run;
        while !rest.is_empty() {
            let told = salvage::read(
                &mut self.salvage,
                self.limit,
                rest,
                &mut self.store,
                &mut self.raw,
                &mut self.out,
            )
            .map_err(|_| stuck())?;
            let taken = told.taken.min(rest.len());
            if taken == 0 {
                return Err(stuck());
            }
            rest = &rest[taken..];
            let written = octets::part(&self.out, 0, told.written);
            self.good.write_all(written).map_err(Failure::Unwritten)?;
            listed(rt, told.left_out)?;
        }
        Ok(())
    }

    // Reads the capture to its end. A proved loop has to end, and nothing says that a file does.
    fn read_all(&mut self, rt: &HostRuntime, from: &mut File) -> Result<(), Failure> {
        let mut run = [0u8; RUN];
        for turn in 0..u64::MAX {
            let n = from.read(&mut run).map_err(Failure::Unread)?;
            if n == 0 {
                return Ok(());
            }
            self.sift(rt, octets::part(&run, 0, n))?;
            tell(rt, turn, self.salvage.stretch);
        }
        Err(Failure::Unread(io::Error::other("no end was found")))
    }

    // Behind the last octet: what is open is listed, and GOOD is on its disk.
    fn close(&mut self, rt: &impl Print) -> Result<Salvage, Failure> {
        let left_out = salvage::finish(&mut self.salvage).map_err(|_| Failure::Unlisted(
            io::Error::other("a call is refused"),
        ))?;
        listed(rt, left_out)?;
        self.good.sync_all().map_err(Failure::Unwritten)?;
        Ok(self.salvage)
    }
}

// No call that has octets is refused or takes none of them (crate capture).
fn stuck() -> Failure {
    Failure::Unwritten(io::Error::other("a run is refused"))
}

// Lists what was left out.
fn listed(rt: &impl Print, left_out: Option<Stretch>) -> Result<(), Failure> {
    match left_out {
        None => Ok(()),
        Some(stretch) => list(rt, stretch).map_err(Failure::Unlisted),
    }
}

// Reads and writes files that are open, and ends.
fn work(rt: &HostRuntime, from: File, to: File, limit: usize) -> Result<Salvage, Failure> {
    let mut from = from;
    let mut sieve = Sieve::new(limit, to);
    sieve.read_all(rt, &mut from)?;
    sieve.close(rt)
}

// GOOD gets its name.
fn give_name(rt: &HostRuntime, salvage: Salvage, good: &str, beside: &str) -> io::Result<()> {
    if let Err(e) = fs::rename(rt, beside, good) {
        let _ = fs::remove_file(rt, beside);
        return fail(rt, good, "cannot be written", &e, "failed");
    }
    say_totals(rt, salvage.totals, salvage.stretch.offset)
}

// Why it has failed; what was written of GOOD is gone.
fn give_up(
    rt: &HostRuntime,
    failure: Failure,
    capture: &str,
    good: &str,
    beside: &str,
) -> io::Result<()> {
    let _ = fs::remove_file(rt, beside);
    match failure {
        Failure::Unread(e) => fail(rt, capture, "cannot be read to its end", &e, "failed"),
        Failure::Unwritten(e) => fail(rt, good, "cannot be written", &e, "failed"),
        Failure::Unlisted(e) => fail(rt, "the list", "cannot be written", &e, "failed"),
    }
}

fn salvage_file(
    rt: &HostRuntime,
    limit: usize,
    capture: &str,
    good: &str,
    beside: &str,
) -> io::Result<()> {
    let from = match File::open(rt, capture) {
        Ok(from) => from,
        Err(e) => return fail(rt, capture, "cannot be opened", &e, "refused"),
    };
    let to = match File::options()
        .write(true)
        .create_new(true)
        .open(rt, beside)
    {
        Ok(to) => to,
        Err(e) => return fail(rt, beside, "cannot be made", &e, "failed"),
    };
    match work(rt, from, to, limit) {
        Ok(salvage) => give_name(rt, salvage, good, beside),
        Err(failure) => give_up(rt, failure, capture, good, beside),
    }
}

fn main(rt: HostRuntime) -> io::Result<()> {
    let words: Vec<String> = match env::args(&rt) {
        Ok(args) => args.collect(rt.alloc())?,
        Err(_) => return refuse(&rt, "the words are text in UTF-8"),
    };
    let count = words.len();
    if count < 3 {
        return refuse(&rt, "two names are asked for, CAPTURE and GOOD");
    }
    if 4 < count {
        return refuse(&rt, "two names and a frame limit are all that is asked for");
    }
    let Some(limit) = words::limit(words.get(3), LIMIT_MOST) else {
        return refuse(&rt, "a frame limit is a number from 78 to 260");
    };
    let good = words[2].as_str();
    if !words::is_name(good) {
        return refuse(&rt, "GOOD is a name, and this one is empty or too long");
    }
    let beside = words::beside(rt.alloc(), good)?;
    salvage_file(&rt, limit, words[1].as_str(), good, beside.as_str())
}
