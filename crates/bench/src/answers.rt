// Answers of the bench: words, numbers and octets, written to standard output. The words are those of `terms`; a number or
// octets stand behind a mark, mostly a space. Assumes nothing of the caller: what is not there is left out.
ghost use Rattle.std.specs.Prelude.{◌≡◌};
ghost use Rattle.bench.specs.Written.{digit_of, hex_row};

use antenna::Angle;
use refusal::Refusal;
use std::io::{self, Stdout};
use terms::Term;

// The longest lent output, and the octet that it is filled with.
pub const ROOM: usize = 600;

pub const FILL: u8 = 0xA5;

// A mark and the longest lent output in HEX.
const LONGEST: usize = 1201;

// ---- words, numbers, octets

pub fn say_octets(out: Stdout, s: &[u8]) -> io::Result<()> {
    out.write_all(s)
}

pub fn say(out: Stdout, term: Term) -> io::Result<()> {
    say_octets(out, terms::word(term).as_bytes())
}

pub fn say_number(out: Stdout, mark: u8, number: usize) -> io::Result<()> {
    say_octets(out, &[mark])?;
    out.print(number)
}

// A tilt's pattern of 16 bits stands in the answer to get tilt. One with the first bit set is negative.
pub fn say_tilt(out: Stdout, mark: u8, tilt: Angle) -> io::Result<()> {
    let told = tilt::tilt(tilt);
    let pattern = octets::pair(told.octets[4], told.octets[5]) as usize;
    if pattern < 32768 {
        return say_number(out, mark, pattern);
    }
    say_octets(out, &[mark])?;
    say_number(out, b'-', 65536 - pattern)
}

#[tactic(auto, unfolding(crate::specs::Written::digit_of))]
fn digit(value: u8) -> u8
    ensures { result ≡ digit_of value }
{
    let d = value % 16;
    if d < 10 { b'0' + d } else { b'a' + (d - 10) }
}

// Octets in HEX behind a mark, as many as there is room for; a `-` stands where none does.
fn in_hex(mark: u8, s: &[u8]) -> [u8; LONGEST]
    ensures { result ≡ hex_row mark s.now }
{
    let mut row = [mark; LONGEST];
    row[1] = b'-';
    for (i, octet) in octets::part(s, 0, ROOM).iter().enumerate() {
        row[2 * i + 1] = digit(*octet / 16);
        row[2 * i + 2] = digit(*octet);
    }
    row
}

// Octets in HEX, `-` where there are none.
pub fn say_hex(out: Stdout, mark: u8, s: &[u8]) -> io::Result<()> {
    let row = in_hex(mark, s);
    let n = s.len();
    if n == 0 {
        return say_octets(out, octets::part(&row, 0, 2));
    }
    say_octets(
        out,
        octets::part(&row, 0, n.saturating_mul(2).saturating_add(1)),
    )
}

// ---- what stands behind the word of several commands

pub fn say_refusal(out: Stdout, refusal: Refusal) -> io::Result<()> {
    say_number(out, b' ', refusal::number(refusal) as usize)
}

pub fn say_outcome(out: Stdout, outcome: Result<(), Refusal>) -> io::Result<()> {
    if let Err(refusal) = outcome {
        return say_refusal(out, refusal);
    }
    Ok(())
}

// Octets that were handed out, or why not.
pub fn say_handed(out: Stdout, handed: Result<usize, Refusal>) -> io::Result<()> {
    match handed {
        Ok(n) => say_number(out, b' ', n),
        Err(refusal) => say_refusal(out, refusal),
    }
}

// The whole of a lent output.
pub fn say_buffer(out: Stdout, lent: [u8; ROOM], room: usize) -> io::Result<()> {
    say_hex(out, b' ', octets::part(&lent, 0, room))
}

// A device's answer.
pub fn say_said(
    out: Stdout,
    said: Result<Option<usize>, Refusal>,
    lent: [u8; ROOM],
    room: usize,
) -> io::Result<()> {
    match said {
        Ok(None) => {}
        Ok(Some(n)) => say_number(out, b' ', n)?,
        Err(refusal) => say_refusal(out, refusal)?,
    }
    say_buffer(out, lent, room)
}
