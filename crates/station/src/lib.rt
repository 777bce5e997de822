// What a device says, and the answer that becomes pending. Assumes nothing of its caller.
#![tactic(auto)]

ghost use Rattle.std.specs.Prelude.{◌≡◌};
ghost use Rattle.station.specs.Station.{resent, answers_with};
ghost use Rattle.station.specs.Turns.{answering};

use control::AskedFor;
use record::{Device, Link, Payload, Pending, Session, Station};

// What a device says: nothing; a control alone; a frame reject; an I-frame with the pending answer; the answer to a
// scan, to an assignment, and to a negotiation that asked for this.
#[derive(Clone, Copy)]
pub enum Say {
    Silence,
    Bare { control: u8 },
    Reject { control: u8, counts: u8, why: u8 },
    Pend { control: u8 },
    Scanned,
    Assigned,
    Negotiated { asked: AskedFor },
}

// The device after a frame, and what it says.
#[derive(Clone, Copy)]
pub struct Turn {
    pub device: Device,
    pub say: Say,
}

// The pending answer again, else RR.
#[tactic(auto, unfolding(crate::specs::Station::resent))]
pub fn resend(s: Session) -> Say
    ensures { result ≡ resent s }
{
    if session::is_pending(s.pending) {
        return Say::Pend {
            control: control::info(s.s, s.r),
        };
    }
    Say::Bare {
        control: control::rr(s.r),
    }
}

#[tactic(auto, unfolding(crate::specs::Station::answers_with, crate::specs::Station::awaiting))]
fn answered(mut station: Station, mut s: Session, payload: Payload) -> Station
    ensures { result ≡ answers_with station s payload }
{
    s.pending = Pending::Answer;
    station.link = Link::Connected(s);
    station.desk.reply = payload;
    station
}

// A payload becomes the pending answer, and is said.
#[tactic(auto, unfolding(crate::specs::Turns::answering, crate::specs::Turns::saying, record::specs::Changes::device_of))]
pub fn answer(mut device: Device, s: Session, payload: Payload) -> Turn
    ensures { result ≡ answering device s payload }
{
    device.station = answered(device.station, s, payload);
    Turn {
        device,
        say: Say::Pend {
            control: control::info(s.s, s.r),
        },
    }
}
