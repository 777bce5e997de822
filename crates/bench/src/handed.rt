// `probe`, and `decode` and `write` with and without a frame limit: octets at the start of a lent output, and the whole of
// that. Assumes nothing of the caller.
ghost use Rattle.std.specs.Prelude.{◌≡◌, cond, length};
ghost use Rattle.refusal.specs.Answer.{Hands};
ghost use Rattle.bench.specs.Bench.{is_decode, is_limited, room_at, coded, hands_out};

use crate::answers::{FILL, ROOM};
use crate::{answers, rows};
use refusal::Refusal;
use scan::Scan;
use script::Asked;
use std::io::{self, Stdout};
use terms::Term;

#[tactic(auto, unfolding(crate::specs::Bench::is_decode))]
fn is_decode(command: usize) -> bool
    ensures { result ≡ is_decode command }
{
    command == script::DECODE || command == script::DECODE_N
}

// Whether a frame limit stands in front of the words.
#[tactic(auto, unfolding(crate::specs::Bench::is_limited))]
fn is_limited(command: usize) -> bool
    ensures { result ≡ is_limited command }
{
    command == script::DECODE_N || command == script::WRITE_N
}

// One of two values, by whether a frame limit stands in front.
fn by_limit(command: usize, limited: usize, plain: usize) -> usize
    ensures { result ≡ cond (is_limited command) limited plain }
{
    if is_limited(command) {
        return limited;
    }
    plain
}

// The codec's commands.
fn coded_by(asked: Asked, lent: &mut [u8]) -> Result<usize, Refusal>
    ensures { Hands (coded asked.command asked (length lent.old)) lent.old result
        lent.new }
{
    let values = asked.values;
    let command = asked.command;
    let limit = by_limit(command, values[1], limits::LIMIT_LEAST);
    let hex = octets::part(&asked.octets, 0, asked.len as usize);
    if is_decode(command) {
        return frame::decode(limit, hex, lent);
    }
    let address = rows::octet(by_limit(command, values[2], values[1]));
    let control = rows::octet(by_limit(command, values[3], values[2]));
    writer::write(limit, address, control, hex, lent)
}

fn handed_by(scan: Scan, asked: Asked, lent: &mut [u8]) -> Result<usize, Refusal>
    ensures { Hands (hands_out asked.command scan asked (length lent.old)) lent.old result
        lent.new }
{
    if asked.command == script::PROBE {
        return scan::probe(scan, lent);
    }
    coded_by(asked, lent)
}

// The word for what was handed out, and the whole of the lent output.
fn hand_out(out: Stdout, scan: Scan, asked: Asked, room: usize) -> io::Result<()> {
    let mut lent = [FILL; ROOM];
    let command = asked.command;
    let handed = handed_by(scan, asked, rows::front(&mut lent, room));
    answers::say(out, Term::Handed { command, handed })?;
    answers::say_handed(out, handed)?;
    answers::say_buffer(out, lent, room)
}

// The place of ROOM, the last word, of a command that hands out octets.
#[tactic(auto, unfolding(crate::specs::Bench::room_at))]
fn room_at(command: usize) -> Option<usize>
    ensures { result ≡ room_at command }
{
    match command {
        script::PROBE => Some(1),
        script::DECODE => Some(2),
        script::WRITE => Some(4),
        script::DECODE_N => Some(3),
        script::WRITE_N => Some(5),
        _ => None,
    }
}

// Any other command hands out nothing.
pub fn obey(out: Stdout, scan: Scan, asked: Asked) -> io::Result<()> {
    match room_at(asked.command) {
        Some(at) => hand_out(out, scan, asked, asked.values[at % 8]),
        None => Ok(()),
    }
}
