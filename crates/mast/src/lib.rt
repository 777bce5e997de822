// A row of devices on one cable, and a scan of it run to its end: each probe is written as a line, every device hears
// what lies between its flags, and whether one answered is reported. With allowed devices of different padded identities
// it is demand 3's scan (proofs/Demand.antt). Assumes nothing of its caller.
#![tactic(auto)]

ghost use Rattle.std.specs.Prelude.{◌≡◌, take};
ghost use Rattle.frame.specs.Line.{inside};
ghost use Rattle.scan.specs.Scan.{probe_length, probed};
ghost use Rattle.bus.specs.Cable.{line_for};
ghost use Rattle.mast.specs.Mast.{swept};
ghost use Rattle.mast.specs.Steps.{line_in, Probing, Listens, Sends};

use bus::{MOST, Row};
use limits::{LIMIT_LEAST, LINE_MOST, LONGEST_FRAME};
use octets::Text;
use record::Device;
use scan::{PROBE, Scan};

// A scan that was run to its end, and the row after it.
#[derive(Clone, Copy)]
pub struct Swept {
    pub scan: Scan,
    pub row: Row,
}

// ---- the line of the probe that is next

type Written = Text<LINE_MOST>;

fn line_of(probe: [u8; PROBE]) -> Written
    ensures { line_in result ≡ line_for probe }
{
    let mut octets = [0u8; LINE_MOST];
    let handed = writer::write(LIMIT_LEAST, probe[0], probe[1], &probe[2..], &mut octets);
    Text {
        octets,
        len: handed.unwrap_or(0),
    }
}

// The line of the probe that is next; none where the scan asks no more.
fn ask(scan: Scan) -> Option<Written>
    ensures { Probing (probed scan probe_length) result }
{
    let mut probe = [0u8; PROBE];
    match scan::probe(scan, &mut probe) {
        Ok(_) => Some(line_of(probe)),
        Err(_) => None,
    }
}

// ---- the line goes to every device

// What lies between the flags of a line.
fn inner(line: &[u8]) -> &[u8]
    ensures { result.now ≡ inside line.now }
{
    if line.len() < 2 {
        return &line[..0];
    }
    &line[1..line.len() - 1]
}

// A device hears the line: whether it answers with a frame.
// A match: by `matches!` the proof has no fact that tells silence from a refusal (tried).
fn listen(device: &mut Device, line: Written) -> bool
    ensures { Listens device.old (line_in line) result device.new }
{
    let mut answer = [0u8; LONGEST_FRAME];
    match device::hear(device, inner(line.octets()), &mut answer) {
        Ok(Some(_)) => true,
        Ok(None) => false,
        Err(_) => false,
    }
}

// To each device on the cable, the last first, as none hears another: whether some device answers.
fn send(devices: &mut [Device; MOST], count: usize, line: Written) -> bool
    ensures { Sends devices.old count (line_in line) result devices.new }
{
    let mut heard = false;
    for place in (0..octets::fewer(count, MOST)).rev() {
        if listen(&mut devices[place], line) {
            heard = true;
        }
    }
    heard
}

// ---- the scan

// A scan of the row with this limit of probes, from its start to its end.
pub fn sweep(row: Row, limit: u16) -> Swept
    ensures { result ≡ swept row limit }
{
    let mut row = row;
    let mut scan = scanner::new(limit);
    for _ in 0..limit {
        let Some(line) = ask(scan) else {
            return Swept { scan, row };
        };
        let heard = send(&mut row.devices, row.count, line);
        // A scan that gave a probe takes its answer.
        let _ = scanner::report(&mut scan, heard);
    }
    Swept { scan, row }
}
