// `show`: a device's state in one line. Assumes nothing of the caller.
ghost use Rattle.std.specs.Prelude.{◌≡◌};
ghost use Rattle.conduct.specs.Endings.{pending_in};

use crate::answers;
use antenna::{Alarms, Motion};
use record::{Desk, Device, Link, Payload, Pending};
use std::io::{Result, Stdout};
use terms::Term;

// A word behind a space.
fn say_word(out: Stdout, term: Term) -> Result<()> {
    answers::say_octets(out, b" ")?;
    answers::say(out, term)
}

fn say_link(out: Stdout, link: Link) -> Result<()> {
    say_word(out, Term::Link(link))?;
    if let Link::Connected(session) = link {
        answers::say_number(out, b':', session.r as usize)?;
        answers::say_number(out, b':', session.s as usize)?;
    }
    Ok(())
}

// The octets of a payload, from a place on.
fn say_payload(out: Stdout, mark: u8, payload: Payload, from: usize) -> Result<()> {
    answers::say_hex(out, mark, octets::part(&payload.octets, from, payload.len))
}

fn pending_of(link: Link) -> Pending
    ensures { result ≡ pending_in link }
{
    match link {
        Link::NoAddress => Pending::Nothing,
        Link::AddressAssigned => Pending::Nothing,
        Link::Connected(session) => session.pending,
    }
}

fn say_pending(out: Stdout, pending: Pending, desk: Desk) -> Result<()> {
    match pending {
        Pending::Nothing => say_word(out, Term::Pending(pending)),
        Pending::Answer => say_payload(out, b' ', desk.reply, 0),
        Pending::Indication => {
            say_word(out, Term::Pending(pending))?;
            say_payload(out, b':', report::indication(desk.said, desk.told), 0)
        }
    }
}

fn say_drive(out: Stdout, motion: Motion) -> Result<()> {
    say_word(out, Term::Drive(motion))?;
    if let Motion::Owing { asked } = motion {
        return answers::say_tilt(out, b':', asked);
    }
    Ok(())
}

// The codes stand in the answer to alarm status behind its code, its length and its return code.
fn say_alarms(out: Stdout, alarms: Alarms) -> Result<()> {
    say_payload(out, b' ', report::alarms(alarms), 4)
}

pub fn show(out: Stdout, device: Device) -> Result<()> {
    let station = device.station;
    let antenna = device.antenna;
    let link = station.link;
    let desk = station.desk;
    let motion = antenna.motion;
    let drive = antenna.drive;
    say_link(out, link)?;
    answers::say_number(out, b' ', desk.address as usize)?;
    say_pending(out, pending_of(link), desk)?;
    say_drive(out, motion)?;
    answers::say_tilt(out, b' ', drive.tilt)?;
    say_alarms(out, drive.raised)?;
    say_alarms(out, desk.told)?;
    answers::say_number(out, b' ', desk.subscribed as usize)
}
