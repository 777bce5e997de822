// RR in a session: the pending answer again, a result that waits, an indication, or RR.
// Assumes nothing of its caller.
#![tactic(auto)]

ghost use Rattle.std.specs.Prelude.{◌≡◌};
ghost use Rattle.antenna.specs.Motions.{Awaits};
ghost use Rattle.payload.specs.Payloads.{payload_of, result_of};
ghost use Rattle.poll.specs.Poll.{to_tell, indicates, indicating, idle_poll, waiting_poll, poll_of};

use antenna::{Alarms, Drive, Motion};
use record::{Desk, Device, Link, Payload, Pending, Session, Station};
use station::{Say, Turn};

// Whether there is something to tell, and it is subscribed.
#[tactic(auto, unfolding(crate::specs::Poll::to_tell))]
fn is_to_tell(desk: Desk, drive: Drive) -> bool
    ensures { result ≡ to_tell desk drive }
{
    desk.subscribed && antenna::differ(drive.raised.flags, desk.told.flags)
}

#[tactic(auto, unfolding(crate::specs::Poll::indicates, station::specs::Station::awaiting))]
fn indicated(mut station: Station, mut s: Session, alarms: Alarms) -> Station
    ensures { result ≡ indicates station s alarms }
{
    s.pending = Pending::Indication;
    station.link = Link::Connected(s);
    station.desk.said = alarms;
    station
}

// An indication of the alarms as they are becomes pending, and is said.
#[tactic(auto, unfolding(station::specs::Turns::saying, record::specs::Changes::device_of))]
fn indicate(mut device: Device, s: Session) -> Turn
    ensures { result ≡ indicating device s }
{
    device.station = indicated(device.station, s, device.antenna.drive.raised);
    Turn {
        device,
        say: Say::Pend {
            control: control::info(s.s, s.r),
        },
    }
}

// With nothing pending and no result that waits.
#[tactic(auto, unfolding(crate::specs::Poll::idle_poll, station::specs::Turns::saying))]
fn poll_idle(device: Device, s: Session) -> Turn
    ensures { result ≡ idle_poll device s }
{
    if is_to_tell(device.station.desk, device.antenna.drive) {
        return indicate(device, s);
    }
    Turn {
        device,
        say: Say::Bare {
            control: control::rr(s.r),
        },
    }
}

// The result of a set tilt whose movement has ended.
#[tactic(auto, unfolding(payload::specs::Payloads::result_of))]
fn result(reached: bool) -> Payload
    ensures { result ≡ payload_of (result_of reached) }
{
    if reached {
        return payload::done(0x33);
    }
    payload::failure(0x33, 0x02)
}

#[tactic(auto, unfolding(crate::specs::Poll::waiting_poll, record::specs::Changes::device_of, station::specs::Turns::answering, antenna::specs::Motions::moves))]
fn poll_waiting(mut device: Device, s: Session, waits: Option<bool>) -> Turn
    ensures { result ≡ waiting_poll device s waits }
{
    match waits {
        None => poll_idle(device, s),
        Some(reached) => {
            device.antenna.motion = Motion::Still;
            station::answer(device, s, result(reached))
        }
    }
}

// The result that waits, if one does.
#[tactic(auto, using(antenna::proofs::Awaits::awaits), unfolding(antenna::specs::Motions::waiting_of))]
fn waiting(motion: Motion) -> Option<bool>
    ensures { Awaits motion result }
{
    match motion {
        Motion::Stopped { reached } => Some(reached),
        _ => None,
    }
}

// RR in the session `s`, what it acknowledges being removed.
#[tactic(auto, unfolding(crate::specs::Poll::poll_of, station::specs::Turns::saying))]
pub fn poll(device: Device, s: Session) -> Turn
    ensures { result ≡ poll_of device s }
{
    if session::is_pending(s.pending) {
        return Turn {
            device,
            say: station::resend(s),
        };
    }
    poll_waiting(device, s, waiting(device.antenna.motion))
}
