// The bench's row of drives: one more device, and the commands to one of them. A command is its place among the names of
// the bench script (`script`); its words are values, and octets that the HEX words stand for.
// Headline: for every command the row after it, the answer, and the lent output (specs/Drives.antt). Assumes nothing of its
// caller: a number that is no device, no command, no tilt or no alarm has its answer.
#![tactic(auto)]

ghost use Rattle.std.specs.Prelude.{◌≡◌, true, ◌<◌, length};
ghost use Rattle.refusal.specs.Answer.{Changes, made_of};
ghost use Rattle.device.specs.Judge.{Judges};
ghost use Rattle.bus.specs.Cable.{row_most};
ghost use Rattle.drives.specs.Drives.{Obeys, after_of, is_tilt, tilt_of, are_tilts, fresh_with, added, adds};
ghost use Rattle.drives.specs.Drives.{is_device, device_at, listens, tells, is_value, event_of, happens, befalls};
ghost use Rattle.drives.specs.Drives.{tells_limit, to_device, for_device, obeyed};

use antenna::Angle;
use bus::{MOST, Row};
use record::{Device, Event, Span};
use refusal::Refusal;

// The words of a command by their places, the command's own word at 0. The value of HEX is where its octets end.
pub type Values = [usize; 8];

// An answer: `error command`, `error device`, `error full`; `device K`; `done` or `refused N`; `answer`, `silence` or
// `refused N`; `state`, of the device at this place of the row; `limit N`.
#[derive(Clone, Copy)]
pub enum Response {
    NoCommand,
    NoDevice,
    Full,
    Device(usize),
    Outcome(Result<(), Refusal>),
    Said(Result<Option<usize>, Refusal>),
    State(usize),
    Limit(usize),
}

// ---- words

#[tactic(auto, unfolding(crate::specs::Drives::is_tilt))]
fn is_tilt(pattern: usize) -> bool
    ensures { result ≡ is_tilt pattern }
{
    pattern < 65536
}

// The tilt of a pattern of 16 bits.
#[tactic(auto, unfolding(crate::specs::Drives::tilt_of))]
fn tilt_of(pattern: usize) -> Angle
    ensures { result ≡ tilt_of pattern }
{
    tilt::angle((pattern % 256) as u8, (pattern / 256 % 256) as u8)
}

// ---- `device`

// The four texts lie one behind the other.
fn fresh(values: Values, octets: &[u8]) -> Result<Device, Refusal>
    ensures { made_of result ≡ fresh_with values octets.now }
{
    let product = values[1];
    let hardware = values[2];
    let software = values[3];
    fresh::fresh(
        octets::part(octets, 0, product),
        octets::part(octets, product, hardware),
        octets::part(octets, hardware, software),
        octets::part(octets, software, values[4]),
        Span {
            lowest: tilt_of(values[5]),
            highest: tilt_of(values[6]),
            present: tilt_of(values[7]),
        },
    )
}

#[tactic(auto, unfolding(crate::specs::Drives::are_tilts))]
fn are_tilts(values: Values) -> bool
    ensures { result ≡ are_tilts values }
{
    is_tilt(values[5]) && is_tilt(values[6]) && is_tilt(values[7])
}

// A refused device takes no number.
fn make(row: &mut Row, values: Values, octets: &[u8]) -> Response
    requires { row.old.count < row_most }
    ensures { after_of row.new result ≡ added row.old (fresh_with values octets.now) }
{
    match fresh(values, octets) {
        Ok(device) => {
            row.devices[row.count] = device;
            row.count += 1;
            Response::Device(row.count)
        }
        Err(refusal) => Response::Outcome(Err(refusal)),
    }
}

// A 33rd device is not looked at.
fn add(row: &mut Row, values: Values, octets: &[u8]) -> Response
    ensures { after_of row.new result ≡ adds row.old values octets.now }
{
    if MOST <= row.count {
        return Response::Full;
    }
    if are_tilts(values) {
        return make(row, values, octets);
    }
    Response::Outcome(Err(Refusal::NotAllowed))
}

// ---- the commands to a device

// Whether the device K is one of so many.
#[tactic(auto, unfolding(crate::specs::Drives::is_device))]
fn is_device(count: usize, k: usize) -> bool
    ensures { result ≡ is_device count k }
{
    k != 0 && k <= MOST && k <= count
}

// `frame`: decoded octets; else `hear`: octets as they come from the line.
fn listen(
    device: &mut Device,
    command: usize,
    octets: &[u8],
    lent: &mut [u8],
) -> Result<Option<usize>, Refusal>
    ensures { Judges (listens command device.old octets.now (length lent.old)) device.old lent.old
        result device.new lent.new }
{
    if command == script::FRAME {
        return device::judge(device, octets, lent);
    }
    device::hear(device, octets, lent)
}

// A place of the row, here and in the two below: a type for it would be made and taken apart in one line.
fn deliver(row: &mut Row, place: usize, command: usize, octets: &[u8], lent: &mut [u8]) -> Response
    requires { place < row_most }
    ensures { Obeys (tells row.old place (listens command (device_at row.old place) octets.now
        (length lent.old)) lent.old) row.new result lent.new }
{
    Response::Said(listen(&mut row.devices[place], command, octets, lent))
}

// Whether an event has such a value: `stopped` a tilt, `raise` and `clear` an alarm.
#[tactic(auto, unfolding(crate::specs::Drives::is_value))]
fn is_value(command: usize, value: usize) -> bool
    ensures { result ≡ is_value command value }
{
    if command == script::STOPPED {
        return is_tilt(value);
    }
    value < 256
}

#[tactic(auto, unfolding(crate::specs::Drives::event_of, crate::specs::Drives::is_value))]
fn event_of(command: usize, value: usize) -> Event
    requires { is_value command value ≡ true }
    ensures { result ≡ event_of command value }
{
    if command == script::STOPPED {
        return Event::Stopped(tilt_of(value));
    }
    if command == script::RAISE {
        return Event::Raised(value as u8);
    }
    Event::Cleared(value as u8)
}

// An event of a value that is none can't be.
fn happen(device: &mut Device, command: usize, value: usize) -> Result<(), Refusal>
    ensures { Changes (happens device.old command value) device.old result device.new }
{
    if is_value(command, value) {
        return event::happen(device, event_of(command, value));
    }
    if record::allowed(*device) {
        return Err(Refusal::CannotBe);
    }
    Err(Refusal::NotAllowed)
}

fn befall(row: &mut Row, place: usize, command: usize, value: usize) -> Response
    requires { place < row_most }
    ensures { after_of row.new result ≡ befalls row.old place (happens (device_at row.old place) command value) }
{
    Response::Outcome(happen(&mut row.devices[place], command, value))
}

// `limit`: the device stays as it is, and so does the row.
fn tell_limit(row: &Row, place: usize) -> Response
    requires { place < row_most }
    ensures { after_of row.now result ≡ tells_limit row.now place }
{
    Response::Limit(row.devices[place].station.desk.limit)
}

// `frame` and `hear`, `show`, `limit`, else an event. The words of a command to a device: K, and the value of an event.
fn to_device(
    row: &mut Row,
    command: usize,
    k: usize,
    value: usize,
    octets: &[u8],
    lent: &mut [u8],
) -> Response
    ensures { Obeys (to_device command row.old k value octets.now
        lent.old) row.new result lent.new }
{
    if !is_device(row.count, k) {
        return Response::NoDevice;
    }
    if command <= script::HEAR {
        return deliver(row, k - 1, command, octets, lent);
    }
    if command == script::SHOW {
        return Response::State(k - 1);
    }
    if command == script::LIMIT {
        return tell_limit(row, k - 1);
    }
    befall(row, k - 1, command, value)
}

// The commands to a device stand first among the names, but for `limit`.
#[tactic(auto, unfolding(crate::specs::Drives::for_device))]
fn is_for_device(command: usize) -> bool
    ensures { result ≡ for_device command }
{
    command <= script::CLEAR || command == script::LIMIT
}

// The commands to a device, and `device`; no other is for the row. Where the answer is a "no", the row is as it was.
pub fn obey(
    row: &mut Row,
    command: usize,
    values: Values,
    octets: &[u8],
    lent: &mut [u8],
) -> Response
    ensures { Obeys (obeyed command row.old values octets.now lent.old)
        row.new result lent.new }
{
    if is_for_device(command) {
        return to_device(row, command, values[1], values[2], octets, lent);
    }
    if command == script::DEVICE {
        return add(row, values, octets);
    }
    Response::NoCommand
}
