// An I-frame in a session.
// Headline: a message is carried out only where its number is the next one due and nothing is pending, and R then moves
// on by one (conduct/proofs/Due.antt). Assumes nothing of its caller.
#![tactic(auto)]

ghost use Rattle.std.specs.Prelude.{◌≡◌};
ghost use Rattle.session.specs.Session.{accepts, taken};
ghost use Rattle.inform.specs.Inform.{heed_of, carried_here, replied_by, carried_by, inform_of};

use message::Carried;
use record::{Device, Link, Payload, Session, Station};
use station::{Say, Turn};

// Whether an I-frame with this N(S) is accepted, after a good N(R).
#[tactic(auto, unfolding(session::specs::Session::accepts))]
fn is_accepted(session: Session, ns: u8) -> bool
    ensures { result ≡ accepts session ns }
{
    !session::is_pending(session.pending) && ns == session.r
}

// The session once an I-frame is accepted: R moves on.
#[tactic(auto, unfolding(session::specs::Session::taken))]
fn moved(mut session: Session) -> Session
    ensures { result ≡ taken session }
{
    session.r = control::next(session.r);
    session
}

// What is told, the subscription and the antenna as the message leaves them.
#[tactic(auto, unfolding(crate::specs::Inform::heeded, record::specs::Changes::device_of))]
fn heed(mut device: Device, s: Session, carried: Carried) -> Device
    ensures { result ≡ heed_of device s carried }
{
    device.station.link = Link::Connected(s);
    device.station.desk.subscribed = carried.subscribed;
    device.station.desk.told = carried.told;
    device.antenna = carried.antenna;
    device
}

#[tactic(auto, unfolding(crate::specs::Inform::replied_by, station::specs::Turns::saying))]
fn reply_by(device: Device, s: Session, carried: Carried, reply: Option<Payload>) -> Turn
    ensures { result ≡ replied_by device s carried reply }
{
    let heeded = heed(device, s, carried);
    match reply {
        Some(payload) => station::answer(heeded, s, payload),
        None => {
            Turn {
                device: heeded,
                say: Say::Bare {
                    control: control::rr(s.r),
                },
            }
        }
    }
}

#[tactic(auto, unfolding(crate::specs::Inform::carried_by))]
fn carry(device: Device, s: Session, m: &[u8]) -> Turn
    ensures { result ≡ carried_by device s (carried_here device m.now) }
{
    let desk = device.station.desk;
    let carried = message::carry(device.plate, device.antenna, desk.told, desk.subscribed, m);
    reply_by(device, s, carried, carried.reply)
}

// An I-frame: carried out if it is the next one due, else what was said is said again.
#[tactic(auto, unfolding(crate::specs::Inform::inform_of, station::specs::Turns::saying))]
pub fn inform(device: Device, s: Session, ns: u8, m: &[u8]) -> Turn
    ensures { result ≡ inform_of device s ns m.now }
{
    if is_accepted(s, ns) {
        return carry(device, moved(s), m);
    }
    Turn {
        device,
        say: station::resend(s),
    }
}
