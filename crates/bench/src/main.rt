// The workshop's bench: a codec, a receiver, up to 32 tilt drives and a scanner, played from a script. Each line of
// standard input is read, and its command carried out; the answer goes to standard output word by word. What a line means
// and what the commands do is the libraries', and so is each word of an answer (`terms`); here are the row of devices, the
// scan by hand and the receiver that the bench holds. A function that hands back a value promises which (specs/); one that
// only prints is proved safe and ending, since no promise can speak of what standard output gets.
// Where standard input or output fails, its error is handed on and ends the program: no other error comes, and nothing is left
// behind by it, since each value is handed in whole.
#![tactic(auto)]

mod answers;
mod ear;
mod handed;
mod input;
mod rows;
mod scanned;
mod scans;
mod shown;

ghost use Rattle.std.specs.Prelude.{◌≡◌, IfOk};
ghost use Rattle.bench.specs.Bench.{value_in, no_devices, is_driven, row_says, row_driven, row_after};
ghost use Rattle.bench.specs.Said.{Drives};

use bus::{MOST, Row};
use drives::Response;
use script::Asked;
use std::io::{Result, Stdin, Stdout};
use terms::Term;

// No device, so the blank record everywhere.
#[tactic(auto, unfolding(crate::specs::Bench::no_devices))]
fn no_devices() -> Row
    ensures { result ≡ no_devices }
{
    Row {
        devices: [fresh::blank(); MOST],
        count: 0,
    }
}

// What stands behind an answer's word.
fn say_behind(
    out: Stdout,
    answer: Response,
    row: Row,
    lent: [u8; answers::ROOM],
    room: usize,
) -> Result<()> {
    match answer {
        Response::NoCommand => Ok(()),
        Response::NoDevice => Ok(()),
        Response::Full => Ok(()),
        Response::Device(k) => answers::say_number(out, b' ', k),
        Response::Outcome(outcome) => answers::say_outcome(out, outcome),
        Response::Said(said) => answers::say_said(out, said, lent, room),
        Response::State(place) => {
            let devices = row.devices;
            shown::show(out, devices[place % MOST])
        }
        Response::Limit(n) => answers::say_number(out, b' ', n),
    }
}

// What came of a command of `drives`: the row, the answer and the lent output after it.
#[derive(Clone, Copy)]
struct Driven {
    row: Row,
    answer: Response,
    lent: [u8; answers::ROOM],
}

// The commands of `drives`: to a device, and `device`.
fn drive(row: Row, asked: Asked) -> Driven
    ensures row { result.row ≡ row_driven asked.command row asked }
    ensures said { Drives (row_says asked.command row asked) (value_in asked 3) result }
{
    let values = asked.values;
    let mut lent = [answers::FILL; answers::ROOM];
    let hex = octets::part(&asked.octets, 0, asked.len as usize);
    let room = values[3].min(answers::ROOM);
    let mut row = row;
    let answer = drives::obey(&mut row, asked.command, values, hex, &mut lent[..room]);
    Driven { row, answer, lent }
}

fn say_driven(out: Stdout, driven: Driven, room: usize) -> Result<()> {
    answers::say(out, Term::Reply(driven.answer))?;
    say_behind(out, driven.answer, driven.row, driven.lent, room)
}

// Whether a command is one of `drives`.
#[tactic(auto, unfolding(crate::specs::Bench::is_driven, drives::specs::Drives::for_device))]
fn is_driven(command: usize) -> bool
    ensures { result ≡ is_driven command }
{
    command <= script::CLEAR || command == script::LIMIT || command == script::DEVICE
}

// The commands to the row; any other leaves it alone. A scan of the row leaves the scan by hand aside.
#[tactic(auto, unfolding(crate::specs::Bench::row_after))]
fn obey(out: Stdout, row: Row, asked: Asked) -> Result<Row>
    ensures { IfOk result (λ after. after ≡ row_after asked.command row asked) }
{
    let values = asked.values;
    if is_driven(asked.command) {
        let driven = drive(row, asked);
        say_driven(out, driven, values[3])?;
        return Ok(driven.row);
    }
    if asked.command == script::SCAN {
        let swept = mast::sweep(row, (values[1] % 65536) as u16);
        scanned::say_scan(out, swept.scan)?;
        return Ok(swept.row);
    }
    Ok(row)
}

// A proved loop has to end, and nothing says that a script does: no script uses up so many turns.
fn play(from: Stdin, out: Stdout, row: Row) -> Result<()> {
    let mut row = row;
    let mut scan = scanner::new(0);
    let mut ear = ear::fresh();
    let mut input = input::unread();
    for _ in 0..u64::MAX {
        input = input::next_line(from, input)?;
        match input::asked_of(input, row.count) {
            Ok(None) => {}
            Ok(Some(asked)) => {
                row = obey(out, row, asked)?;
                scan = scans::by_hand(out, scan, asked)?;
                handed::obey(out, scan, asked)?;
                ear = ear::hear(out, ear, asked)?;
                answers::say_octets(out, b"\n")?;
            }
            Err(fault) => {
                answers::say(out, Term::Fault(fault))?;
                answers::say_octets(out, b"\n")?;
            }
        }
        if !input.whole {
            return Ok(());
        }
    }
    Ok(())
}

fn main(rt: HostRuntime) -> Result<()> {
    play(rt.stdin(), rt.stdout(), no_devices())
}
