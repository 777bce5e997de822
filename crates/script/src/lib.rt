// A line of the bench script, read: its command, and what each word behind it stands for, or its fault.
// Assumes nothing of its caller.
#![tactic(auto)]

ghost use Rattle.std.specs.Prelude.{◌≡◌, [], set, Some, Ok};
ghost use Rattle.script.specs.Words.{spelled, word_at, spaces_in, place_from};
ghost use Rattle.script.specs.Values.{hex_digit, octet_by, octet_of, hex_of, pairs_of, decimal_of};
ghost use Rattle.script.specs.Values.{ranged, number_by, from_one, heard_means, value_of};
ghost use Rattle.script.specs.Script.{command_of, wordless, with_value, with_hex, stored, with_word, words_by};
ghost use Rattle.script.specs.Script.{is_unanswered, read_line};

// The faults of a line, by the words that its answer has for them.
#[derive(Clone, Copy)]
pub enum Fault {
    Long,
    Command,
    Words,
    Hex,
    Number,
    Room,
    Device,
}

// The octets that a line has at most.
pub const LONGEST: usize = 2000;

// ---- the commands

// A command is its place among the names, and no enum: `drives::obey` takes any number, and promises an answer for one that
// is no command (`obeyed` of drives/specs). A new one goes behind the last: a const and COMMANDS, its name in
// `command_of`, the kinds of its words in `read_line`; all that in specs/Commands.antt too, a line of `places` and of
// `words_of` in proofs/Examples.antt, and its name in `command_names` of proofs/Commands.antt. Then whoever obeys it
// (`drives`, `bench`), and `terms` where its answer has a new word.

// To one device of the row.
pub const FRAME: usize = 0;

pub const HEAR: usize = 1;

pub const SHOW: usize = 2;

pub const STOPPED: usize = 3;

pub const RAISE: usize = 4;

pub const CLEAR: usize = 5;

// To the row.
pub const DEVICE: usize = 6;

pub const SCAN: usize = 7;

// To the scan by hand.
pub const BEGIN: usize = 8;

pub const PROBE: usize = 9;

pub const REPORT: usize = 10;

// To the codec.
pub const DECODE: usize = 11;

pub const WRITE: usize = 12;

// To the codec, with a frame limit.
pub const DECODE_N: usize = 13;

pub const WRITE_N: usize = 14;

// To one device of the row.
pub const LIMIT: usize = 15;

// To the receiver.
pub const LISTEN: usize = 16;

pub const OCTETS: usize = 17;

// How many there are.
pub const COMMANDS: usize = 18;

// ---- a line

// What a line asks: its command, the value of each word behind it by its place, and the octets of its HEX words, one
// behind the other. The value of HEX is where its octets end.
#[derive(Clone, Copy)]
pub struct Asked {
    pub command: usize,
    pub values: [usize; 8],
    // a row and how far it is filled, and no Vec: memory is fixed
    pub octets: [u8; 1000],
    pub len: u16,
}

// ---- words

// The word behind so many others; empty where there is none.
fn word(line: &[u8], others: usize) -> &[u8]
    ensures { result.now ≡ word_at others line.now }
{
    line.split(|c| *c == b' ').nth(others).unwrap_or(&[])
}

fn spaces(line: &[u8]) -> usize
    ensures { result ≡ spaces_in line.now }
{
    line.iter().filter(|c| **c == b' ').count()
}

// The place of a word among so many.
fn place_in(names: &[u8], count: usize, name: &[u8]) -> Option<usize>
    ensures { result ≡ place_from 0 count names.now name.now }
{
    for place in 0..count {
        if compare::same(word(names, place), name) {
            return Some(place);
        }
    }
    None
}

// ---- HEX

fn hex_digit(c: u8) -> Option<u32>
    ensures { result ≡ hex_digit c }
{
    char::from(c).to_digit(16)
}

// The octet of two hex digits.
#[tactic(auto, using(crate::proofs::ValueLaws::digit_below), unfolding(crate::specs::Values::octet_by))]
fn octet_by(h: u8, l: u8) -> Result<u8, Fault>
    ensures { result ≡ octet_by h l }
{
    let high = hex_digit(h).ok_or(Fault::Hex)?;
    let low = hex_digit(l).ok_or(Fault::Hex)?;
    Ok((16 * high + low) as u8)
}

// Exactly two hex digits.
#[tactic(auto, unfolding(crate::specs::Values::octet_of))]
fn octet(word: &[u8]) -> Result<u8, Fault>
    ensures { result ≡ octet_of word.now }
{
    match word {
        [high, low] => octet_by(*high, *low),
        _ => Err(Fault::Hex),
    }
}

// ---- numbers

// The number of one or more digits, a million for each above.
#[tactic(auto, unfolding(crate::specs::Values::decimal_of, crate::specs::Values::numeral))]
fn decimal_of(digits: &[u8]) -> Result<usize, Fault>
    ensures { result ≡ decimal_of digits.now }
{
    if digits.is_empty() {
        return Err(Fault::Number);
    }
    let mut n = 0;
    for digit in digits {
        if !digit.is_ascii_digit() {
            return Err(Fault::Number);
        }
        n = (10 * n + usize::from(*digit - b'0')).min(1000000);
    }
    Ok(n)
}

// A number up to `most` as its 16 bits.
#[tactic(auto, unfolding(crate::specs::Values::ranged, crate::specs::Values::pattern_of))]
fn ranged(negative: bool, most: u16, outside: Fault, n: usize) -> Result<usize, Fault>
    ensures { result ≡ ranged negative most outside n }
{
    if usize::from(most) < n {
        return Err(outside);
    }
    if negative {
        return Ok((65536 - n) % 65536);
    }
    Ok(n)
}

// A number from `below` below zero up to `above`; one outside has the fault.
fn number_by(below: u16, above: u16, outside: Fault, word: &[u8]) -> Result<usize, Fault>
    ensures { result ≡ number_by below above outside word.now }
{
    match word.strip_prefix(b"-") {
        Some(digits) => ranged(true, below, outside, decimal_of(digits)?),
        None => ranged(false, above, outside, decimal_of(word)?),
    }
}

// ---- what a word stands for

// Devices are counted from 1.
#[tactic(auto, unfolding(crate::specs::Values::from_one))]
fn from_one(n: usize) -> Result<usize, Fault>
    ensures { result ≡ from_one (Ok n) }
{
    if n == 0 {
        return Err(Fault::Device);
    }
    Ok(n)
}

// An answer to a probe: 1 where it was heard.
#[tactic(auto, unfolding(crate::specs::Values::heard_means, crate::specs::Words::spelled))]
fn heard_means(word: &[u8]) -> Result<usize, Fault>
    ensures { result ≡ heard_means (place_from 0 2 (spelled "silent heard") word.now) }
{
    place_in(b"silent heard", 2, word).ok_or(Fault::Words)
}

// A word of a kind that is not HEX.
#[tactic(auto, unfolding(crate::specs::Values::value_of, crate::specs::Values::from_one))]
fn value_of(kind: u8, devices: u8, word: &[u8]) -> Result<usize, Fault>
    ensures { result ≡ value_of kind devices word.now }
{
    match kind {
        b'r' => number_by(0, 600, Fault::Room, word),
        b'd' => from_one(number_by(0, u16::from(devices), Fault::Device, word)?),
        b't' => number_by(32768, 32767, Fault::Number, word),
        b'a' => number_by(0, 255, Fault::Number, word),
        b'l' => number_by(0, 65535, Fault::Number, word),
        b'o' => Ok(usize::from(octet(word)?)),
        _ => heard_means(word),
    }
}

// ---- the words behind the command

// Nothing behind the command is read yet.
fn wordless(command: usize) -> Asked
    ensures { result ≡ wordless command }
{
    Asked {
        command,
        values: [0; 8],
        octets: [0u8; 1000],
        len: 0,
    }
}

// The values with one at its place, if there is such a place. By its index: once a place that a slice lent out is given
// back, a proof knows only the slice's length.
fn placed(values: [usize; 8], n: usize, value: usize) -> [usize; 8]
    ensures { result ≡ set values n value }
{
    let mut next = values;
    if n < 8 {
        next[n] = value;
    }
    next
}

#[tactic(auto, unfolding(crate::specs::Script::with_value))]
fn with_value(asked: Asked, n: usize, value: usize) -> Asked
    ensures { Ok result ≡ with_value asked n (Ok value) }
{
    let values = placed(asked.values, n, value);
    Asked { values, ..asked }
}

// The octets up to a place, and the value at its own: where they end.
#[tactic(auto, unfolding(crate::specs::Script::with_hex, crate::specs::Script::with_octets, crate::specs::Script::with_value))]
fn with_octets(asked: Asked, n: usize, octets: [u8; 1000], at: usize) -> Asked
    ensures { Ok result ≡ with_hex (stored asked octets at) n (Some []) }
{
    let end = at.min(1000);
    let values = placed(asked.values, n, end);
    Asked {
        command: asked.command,
        values,
        octets,
        len: end as u16,
    }
}

// The octets of the digits, two each, behind those that are there.
fn with_pairs(asked: Asked, n: usize, digits: &[u8]) -> Result<Asked, Fault>
    ensures { result ≡ with_hex asked n (pairs_of digits.now) }
{
    let mut octets = asked.octets;
    let mut at = asked.len as usize;
    for pair in digits.chunks(2) {
        octets::put(&mut octets, at, octet(pair)?);
        at += 1;
    }
    Ok(with_octets(asked, n, octets, at))
}

#[tactic(auto, unfolding(crate::specs::Script::with_hex, crate::specs::Values::hex_of, crate::specs::Values::pairs_of, crate::specs::Words::spelled))]
fn with_hex(asked: Asked, n: usize, word: &[u8]) -> Result<Asked, Fault>
    ensures { result ≡ with_hex asked n (hex_of word.now) }
{
    if compare::same(word, b"-") {
        return with_pairs(asked, n, &[]);
    }
    if word.is_empty() {
        return Err(Fault::Hex);
    }
    with_pairs(asked, n, word)
}

#[tactic(auto, unfolding(crate::specs::Script::with_word, crate::specs::Script::with_value))]
fn with_word(kind: u8, devices: u8, asked: Asked, n: usize, word: &[u8]) -> Result<Asked, Fault>
    ensures { result ≡ with_word kind devices asked n word.now }
{
    if kind == b'x' {
        return with_hex(asked, n, word);
    }
    Ok(with_value(asked, n, value_of(kind, devices, word)?))
}

// The words of these kinds, from the left, up to the first fault.
fn read_words(devices: u8, kinds: &[u8], line: &[u8], asked: Asked) -> Result<Asked, Fault>
    ensures { result ≡ words_by devices kinds.now 1 line.now asked }
{
    let mut next = asked;
    for (i, kind) in kinds.iter().enumerate() {
        next = with_word(*kind, devices, next, i + 1, word(line, i + 1))?;
    }
    Ok(next)
}

// ---- the line

// A line that is empty or a comment gets no answer.
#[tactic(auto, unfolding(crate::specs::Script::is_unanswered))]
fn is_unanswered(line: &[u8]) -> bool
    ensures { result ≡ is_unanswered line.now }
{
    line.is_empty() || line[0] == b'#'
}

// The place of the command among the names, which are one text: it has its words as a line has, by specs/Commands.antt too.
#[tactic(auto, unfolding(crate::specs::Script::command_of, crate::specs::Words::spelled))]
fn command_of(line: &[u8]) -> Option<usize>
    ensures { result ≡ command_of line.now }
{
    let names =
        b"frame hear show stopped raise clear device scan begin probe report decode write decode-n write-n limit listen octets";
    place_in(names, COMMANDS, word(line, 0))
}

// What a line asks of a bench with so many devices; nothing where it gets no answer. At a command's place among the kinds
// stands a letter for each word behind it: x HEX, o an octet, r ROOM, d a device, t a tilt, a an alarm, l a limit, h heard
// or silent. Between two spaces stands none: `listen` is alone.
#[tactic(auto, unfolding(crate::specs::Script::read_line, crate::specs::Script::kinds_of, crate::specs::Words::spelled))]
pub fn read_line(line: &[u8], devices: u8) -> Result<Option<Asked>, Fault>
    ensures { result ≡ read_line line.now devices }
{
    if is_unanswered(line) {
        return Ok(None);
    }
    if LONGEST < line.len() {
        return Err(Fault::Long);
    }
    let command = command_of(line).ok_or(Fault::Command)?;
    let kinds = word(
        b"dxr dxr d dt da da xxxxttt l l r h xr ooxr lxr looxr d  lxr",
        command,
    );
    if spaces(line) != kinds.len() {
        return Err(Fault::Words);
    }
    let asked = read_words(devices, kinds, line, wordless(command))?;
    Ok(Some(asked))
}
