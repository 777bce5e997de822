// The three link states: what a frame that is read at the own address does in each. An XID there is link's.
// Assumes nothing of its caller.
#![tactic(auto)]

ghost use Rattle.std.specs.Prelude.{◌≡◌, ◌<◌};
ghost use Rattle.session.specs.Session.{good_number, vs_of, counts_of};
ghost use Rattle.station.specs.Turns.{saying};
ghost use Rattle.states.specs.States.{begun, released, ua, rejected, info_by, rr_by, rnr_by};
ghost use Rattle.states.specs.States.{connected_by, is_snrm, assigned_by, linked_by};

use control::Order;
use limits::LIMIT_LEAST;
use record::{Device, Link, Pending, Session};
use station::{Say, Turn};

// ---- a session's beginning and end

#[tactic(auto, unfolding(crate::specs::States::begun))]
fn begin(device: Device) -> Device
    ensures { result ≡ begun device }
{
    let desk = device.station.desk;
    let fresh = Session {
        r: 0,
        s: 0,
        pending: Pending::Nothing,
    };
    ending::emptied(device, desk.address, desk.limit, Link::Connected(fresh))
}

#[tactic(auto, unfolding(crate::specs::States::released))]
fn release(device: Device) -> Device
    ensures { result ≡ released device }
{
    let desk = device.station.desk;
    ending::emptied(device, desk.address, LIMIT_LEAST, Link::AddressAssigned)
}

// UA: SNRM, and DISC in a session.
#[tactic(auto, unfolding(station::specs::Turns::saying))]
fn say_ua(device: Device) -> Turn
    ensures { result ≡ saying device ua }
{
    Turn {
        device,
        say: Say::Bare { control: 0x73 },
    }
}

// V(S): S, or S+1 with an answer pending.
#[tactic(auto, unfolding(session::specs::Session::vs_of, control::specs::Control::next_of))]
fn vs(session: Session) -> u8
    ensures number { result ≡ vs_of session }
    ensures low { result < 8 }
{
    if session::is_pending(session.pending) {
        return control::next(session.s);
    }
    session.s % 8
}

// The second octet of a frame reject: 2·V(S) + 32·R.
#[tactic(auto, unfolding(session::specs::Session::counts_of))]
fn counts(session: Session) -> u8
    ensures { result ≡ counts_of session }
{
    vs(session) * 2 + session.r % 8 * 32
}

#[tactic(auto, unfolding(crate::specs::States::rejected, station::specs::Turns::saying))]
fn reject(device: Device, s: Session, control: u8, why: u8) -> Turn
    ensures { result ≡ rejected device s control why }
{
    Turn {
        device: release(device),
        say: Say::Reject {
            control,
            counts: counts(s),
            why,
        },
    }
}

// ---- in a session

// The session stands beside its device: `poll` and `inform` promise their answers for any two of them.

// Whether N(R) is good: S, or S+1 where an answer is pending.
#[tactic(auto, unfolding(session::specs::Session::good_number))]
fn is_good(session: Session, nr: u8) -> bool
    ensures { result ≡ good_number session nr }
{
    nr == session.s || session::is_acknowledged(session, nr)
}

#[tactic(auto, unfolding(crate::specs::States::info_by, crate::specs::States::informed_by))]
fn on_info(device: Device, s: Session, ns: u8, nr: u8, control: u8, m: &[u8]) -> Turn
    ensures { result ≡ info_by device s ns nr control m.now }
{
    if is_good(s, nr) {
        let next = acknowledge::session_after(s, nr);
        return inform::inform(acknowledge::device_after(device, s, nr), next, ns, m);
    }
    reject(device, s, control, 8)
}

#[tactic(auto, unfolding(crate::specs::States::rr_by, crate::specs::States::polled_by))]
fn on_rr(device: Device, s: Session, nr: u8, control: u8) -> Turn
    ensures { result ≡ rr_by device s nr control }
{
    if is_good(s, nr) {
        let next = acknowledge::session_after(s, nr);
        return poll::poll(acknowledge::device_after(device, s, nr), next);
    }
    reject(device, s, control, 8)
}

#[tactic(auto, unfolding(crate::specs::States::rnr_by, crate::specs::States::paused_by, station::specs::Turns::saying))]
fn on_rnr(device: Device, s: Session, nr: u8, control: u8) -> Turn
    ensures { result ≡ rnr_by device s nr control }
{
    if is_good(s, nr) {
        let next = acknowledge::session_after(s, nr);
        return Turn {
            device: acknowledge::device_after(device, s, nr),
            say: Say::Bare {
                control: control::rr(next.r),
            },
        };
    }
    reject(device, s, control, 8)
}

#[tactic(auto, unfolding(crate::specs::States::connected_by, crate::specs::States::renewed, station::specs::Turns::saying))]
fn connected(device: Device, s: Session, order: Order, control: u8, m: &[u8]) -> Turn
    ensures { result ≡ connected_by device s order control m.now }
{
    match order {
        Order::Xid => {
            Turn {
                device,
                say: Say::Silence,
            }
        }
        Order::Snrm => say_ua(begin(release(device))),
        Order::Disc => say_ua(release(device)),
        Order::Info { ns, nr } => on_info(device, s, ns, nr, control, m),
        Order::Rr { nr } => on_rr(device, s, nr, control),
        Order::Rnr { nr } => on_rnr(device, s, nr, control),
        Order::Unknown => reject(device, s, control, 1),
    }
}

// ---- by the state

fn is_snrm(order: Order) -> bool
    ensures { result ≡ is_snrm order }
{
    matches!(order, Order::Snrm)
}

#[tactic(auto, unfolding(crate::specs::States::assigned_by, station::specs::Turns::saying))]
fn assigned(device: Device, order: Order) -> Turn
    ensures { result ≡ assigned_by device order }
{
    if is_snrm(order) {
        return say_ua(begin(device));
    }
    Turn {
        device,
        say: Say::Bare { control: 0x1F },
    }
}

// An order at the own address, in the link state `link`.
#[tactic(auto, unfolding(crate::specs::States::linked_by, station::specs::Turns::saying))]
pub fn linked(device: Device, link: Link, order: Order, control: u8, m: &[u8]) -> Turn
    ensures { result ≡ linked_by device link order control m.now }
{
    match link {
        Link::NoAddress => {
            Turn {
                device,
                say: Say::Silence,
            }
        }
        Link::AddressAssigned => assigned(device, order),
        Link::Connected(s) => connected(device, s, order, control, m),
    }
}
