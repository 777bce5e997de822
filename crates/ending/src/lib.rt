// What a session's end, and a first SNRM, leave of a device. The definitions and the laws are those of `record`.
// Assumes nothing of its caller: any record of the type may be handed in.
// Headline: an allowed record stays allowed at a session's end (record/proofs/Stays.antt).
#![tactic(auto)]

ghost use Rattle.std.specs.Prelude.{◌≡◌};
ghost use Rattle.antenna.specs.Motions.{unowed_of};
ghost use Rattle.record.specs.Changes.{unsaid_at, emptied_as};

use antenna::Motion;
use record::{Device, Link, Station};

// A result owed is dropped; a running movement stays.
#[tactic(auto, unfolding(antenna::specs::Motions::unowed_of))]
fn unowed(motion: Motion) -> Motion
    ensures { result ≡ unowed_of motion }
{
    match motion {
        Motion::Still | Motion::Stopped { .. } => Motion::Still,
        Motion::Moving | Motion::Owing { .. } => Motion::Moving,
    }
}

// The station at an address, with a frame limit and in a link state, with nothing pending.
#[tactic(auto, unfolding(record::specs::Changes::unsaid_at))]
fn unsaid(mut station: Station, address: u8, limit: usize, link: Link) -> Station
    ensures { result ≡ unsaid_at station address limit link }
{
    station.link = link;
    station.desk.address = address;
    station.desk.limit = limit;
    station.desk.said = antenna::CALM;
    station.desk.reply = record::NO_REPLY;
    station
}

// The device at an address, with a frame limit and in a link state: what was pending or owed is dropped.
#[tactic(auto, unfolding(record::specs::Changes::emptied_as, antenna::specs::Motions::moves))]
pub fn emptied(mut device: Device, address: u8, limit: usize, link: Link) -> Device
    ensures { result ≡ emptied_as device address limit link }
{
    device.station = unsaid(device.station, address, limit, link);
    device.antenna.motion = unowed(device.antenna.motion);
    device
}
