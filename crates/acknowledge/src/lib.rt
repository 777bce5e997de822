// An acknowledgement: what a good N(R) does to a session and its device.
// Headline: told changes at an acknowledged indication alone, to what it said (proofs/Settled.antt).
// Assumes nothing of its caller.
#![tactic(auto)]

ghost use Rattle.std.specs.Prelude.{◌≡◌};
ghost use Rattle.acknowledge.specs.Acknowledge.{emptied, told_after, relieved, session_after, station_after};
ghost use Rattle.acknowledge.specs.Acknowledge.{acknowledged};

use antenna::Alarms;
use record::{Desk, Device, Link, Pending, Session, Station};

#[tactic(auto, unfolding(crate::specs::Acknowledge::emptied))]
fn emptied_session(mut s: Session) -> Session
    ensures { result ≡ emptied s }
{
    s.s = control::next(s.s);
    s.pending = Pending::Nothing;
    s
}

#[tactic(auto, unfolding(crate::specs::Acknowledge::told_after))]
fn told_after(desk: Desk, pending: Pending) -> Alarms
    ensures { result ≡ told_after desk pending }
{
    match pending {
        Pending::Nothing | Pending::Answer => desk.told,
        Pending::Indication => desk.said,
    }
}

// The station once the pending answer of its session is acknowledged.
#[tactic(auto, unfolding(crate::specs::Acknowledge::relieved))]
fn relieve(mut station: Station, s: Session) -> Station
    ensures { result ≡ relieved station s }
{
    station.desk.told = told_after(station.desk, s.pending);
    station.desk.said = antenna::CALM;
    station.desk.reply = record::NO_REPLY;
    station.link = Link::Connected(emptied_session(s));
    station
}

#[tactic(auto, unfolding(crate::specs::Acknowledge::station_after))]
fn station_after(station: Station, s: Session, nr: u8) -> Station
    ensures { result ≡ station_after station s nr }
{
    if session::is_acknowledged(s, nr) {
        return relieve(station, s);
    }
    station
}

// The session after a good N(R).
#[tactic(auto, unfolding(crate::specs::Acknowledge::session_after))]
pub fn session_after(s: Session, nr: u8) -> Session
    ensures { result ≡ session_after s nr }
{
    if session::is_acknowledged(s, nr) {
        return emptied_session(s);
    }
    s
}

// The device after a good N(R).
#[tactic(auto, unfolding(crate::specs::Acknowledge::acknowledged, record::specs::Changes::device_of))]
pub fn device_after(mut device: Device, s: Session, nr: u8) -> Device
    ensures { result ≡ acknowledged device s nr }
{
    device.station = station_after(device.station, s, nr);
    device
}
