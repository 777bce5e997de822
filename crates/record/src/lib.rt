// The device's record: its plate, its station on the cable, its antenna. Which records are allowed. A fresh record is made
// in `fresh`, events happen in `event`, and a session ends in `ending`; the definitions of these and the laws about them
// are here. Assumes nothing of its caller: any record of the type may be handed in.
// Headline: an allowed record stays allowed under every event and at a session's end (proofs/Stays.antt).
#![tactic(auto)]

ghost use Rattle.std.specs.Prelude.{◌≡◌};
ghost use Rattle.antenna.specs.Motions.{in_range, owes_of};
ghost use Rattle.record.specs.Allowed.{identity_allowed, plates_allowed, numbers_allowed, pending_fits};
ghost use Rattle.record.specs.Allowed.{addressed, session_allowed, link_allowed, station_allowed, owed_allowed};
ghost use Rattle.record.specs.Allowed.{allowed_device};

use antenna::{Alarms, Angle, Antenna, Motion};
use identity::OCTETS;
use octets::Text;
use refusal::Refusal;

// The most octets of the product text, and of the hardware and the software text.
pub const PRODUCT: usize = 20;

pub const VERSION: usize = 14;

// Vendor and serial number; what the device is, and what is in it.
pub type Identity = Text<OCTETS>;

pub type Product = Text<PRODUCT>;

pub type Version = Text<VERSION>;

// The device's fixed data.
#[derive(Clone, Copy)]
pub struct Plate {
    pub identity: Identity,
    pub product: Product,
    pub hardware: Version,
    pub software: Version,
}

// What is pending in a session: an answer's payload lies in `reply`, an indication says `said`.
#[derive(Clone, Copy)]
pub enum Pending {
    Nothing,
    Answer,
    Indication,
}

// R, the next number due from the master; S, the number of the next unacknowledged answer.
#[derive(Clone, Copy)]
pub struct Session {
    pub r: u8,
    pub s: u8,
    pub pending: Pending,
}

#[derive(Clone, Copy)]
pub enum Link {
    NoAddress,
    AddressAssigned,
    Connected(Session),
}

// The most octets of a pending answer's payload.
pub const REPLY: usize = 74;

// The payload of an answer.
pub type Payload = Text<REPLY>;

// Nothing is pending, so nothing lies in the reply.
pub const NO_REPLY: Payload = Text {
    octets: [0u8; REPLY],
    len: 0,
};

// All of a station but its link. `limit` is the link's frame limit.
#[derive(Clone, Copy)]
pub struct Desk {
    pub address: u8,
    pub limit: usize,
    pub subscribed: bool,
    pub told: Alarms,
    pub said: Alarms,
    pub reply: Payload,
}

// One port's side of the cable.
#[derive(Clone, Copy)]
pub struct Station {
    pub link: Link,
    pub desk: Desk,
}

#[derive(Clone, Copy)]
pub struct Device {
    pub plate: Plate,
    pub station: Station,
    pub antenna: Antenna,
}

// A drive's range and its present tilt.
#[derive(Clone, Copy)]
pub struct Span {
    pub lowest: Angle,
    pub highest: Angle,
    pub present: Angle,
}

// What happens to a device: the motor stopped there, this alarm rose, this alarm fell.
#[derive(Clone, Copy)]
pub enum Event {
    Stopped(Angle),
    Raised(u8),
    Cleared(u8),
}

// ---- allowed or not

#[tactic(auto, unfolding(crate::specs::Allowed::identity_allowed))]
fn identity_allowed(identity: Identity) -> bool
    ensures { result ≡ identity_allowed identity.octets identity.len }
{
    identity.len <= OCTETS && identity::allowed(identity.octets())
}

#[tactic(auto, unfolding(crate::specs::Allowed::plates_allowed))]
fn plate_allowed(plate: Plate) -> bool
    ensures { result ≡ plates_allowed plate }
{
    identity_allowed(plate.identity)
        && plate.product.len <= PRODUCT
        && plate.hardware.len <= VERSION
        && plate.software.len <= VERSION
}

#[tactic(auto, unfolding(crate::specs::Allowed::numbers_allowed))]
fn numbers_allowed(session: Session) -> bool
    ensures { result ≡ numbers_allowed session }
{
    session.r < 8 && session.s < 8
}

#[tactic(auto, unfolding(crate::specs::Allowed::pending_fits))]
fn pending_allowed(desk: Desk, pending: Pending) -> bool
    ensures { result ≡ pending_fits desk pending }
{
    match pending {
        Pending::Nothing => true,
        Pending::Answer => desk.reply.len <= REPLY,
        Pending::Indication => antenna::differ(desk.said.flags, desk.told.flags),
    }
}

// Whether an address is one that a device may have: 1 to 254.
#[tactic(auto, unfolding(crate::specs::Allowed::addressed))]
pub fn is_addressed(address: u8) -> bool
    ensures { result ≡ addressed address }
{
    0 < address && address < 255
}

#[tactic(auto, unfolding(crate::specs::Allowed::session_allowed))]
fn session_allowed(desk: Desk, session: Session) -> bool
    ensures { result ≡ session_allowed desk session }
{
    numbers_allowed(session) && pending_allowed(desk, session.pending)
}

#[tactic(auto, unfolding(crate::specs::Allowed::link_allowed))]
fn link_allowed(desk: Desk, link: Link) -> bool
    ensures { result ≡ link_allowed desk link }
{
    match link {
        Link::NoAddress => desk.address == 0,
        Link::AddressAssigned => is_addressed(desk.address),
        Link::Connected(session) => is_addressed(desk.address) && session_allowed(desk, session),
    }
}

#[tactic(auto, unfolding(crate::specs::Allowed::station_allowed))]
fn station_allowed(station: Station) -> bool
    ensures { result ≡ station_allowed station }
{
    limits::is_limit(station.desk.limit) && link_allowed(station.desk, station.link)
}

// Whether a tilt result is owed: a running movement's, or one that waits.
fn owes(motion: Motion) -> bool
    ensures { result ≡ owes_of motion }
{
    matches!(motion, Motion::Owing { .. } | Motion::Stopped { .. })
}

#[tactic(auto, unfolding(crate::specs::Allowed::owed_allowed))]
fn owed_allowed(link: Link, motion: Motion) -> bool
    ensures { result ≡ owed_allowed link motion }
{
    matches!(link, Link::Connected(_)) || !owes(motion)
}

fn antenna_allowed(antenna: Antenna) -> bool
    ensures { result ≡ in_range antenna antenna.drive.tilt }
{
    aim::in_range(antenna, antenna.drive.tilt)
}

// Whether a record may be handed in.
#[tactic(auto, unfolding(crate::specs::Allowed::allowed_device))]
pub fn allowed(device: Device) -> bool
    ensures { result ≡ allowed_device device }
{
    plate_allowed(device.plate)
        && antenna_allowed(device.antenna)
        && station_allowed(device.station)
        && owed_allowed(device.station.link, device.antenna.motion)
}
