// The link: what a decoded frame does to a device, and what the device says; the octets of that are laid out above.
// Headline: a frame starts a movement exactly if it is a set tilt that is the next one due (conduct/proofs/Due.antt);
// an allowed device stays allowed (conduct/proofs/Stays.antt). Assumes nothing of its caller.
#![tactic(auto)]

ghost use Rattle.std.specs.Prelude.{◌≡◌};
ghost use Rattle.control.specs.Control.{polled, numbered_by, Asks};
ghost use Rattle.station.specs.Turns.{saying};
ghost use Rattle.record.specs.Changes.{limited_to};
ghost use Rattle.link.specs.Link.{quiet, ordered_by, has_address, agreed_by, negotiated_by, own_by, xid_by, everyone_by};
ghost use Rattle.link.specs.Link.{is_own, addressed_by, controlled_by, judged_frame};

use control::Order;
use limits::LIMIT_LEAST;
use negotiation::Agreed;
use params::Malformed;
use record::{Device, Link};
use station::{Say, Turn};
use xid::Xid;

// The address of a frame to every device.
const ALL_STATIONS: u8 = 0xFF;

// ---- what a control octet asks

// Whether the poll bit is set.
#[tactic(auto, unfolding(control::specs::Control::polled))]
fn polls(control: u8) -> bool
    ensures { result ≡ polled control }
{
    control / 16 % 2 == 1
}

// An I-frame, or a supervisory one, by its numbers.
#[tactic(auto, unfolding(control::specs::Control::numbered_by))]
fn numbered(control: u8) -> Order
    ensures { result ≡ numbered_by control }
{
    let nr = control / 32;
    if control % 2 == 0 {
        return Order::Info {
            ns: control / 2 % 8,
            nr,
        };
    }
    match control % 32 {
        0x11 => Order::Rr { nr },
        0x15 => Order::Rnr { nr },
        _ => Order::Unknown,
    }
}

// What a control octet with its poll bit set asks; of one whose poll bit is clear it means nothing, and `polls` tells.
fn asked(control: u8) -> Order
    ensures { Asks control result }
{
    match control {
        control::XID => Order::Xid,
        0x93 => Order::Snrm,
        0x53 => Order::Disc,
        _ => numbered(control),
    }
}

// ---- the frame

#[tactic(auto, unfolding(station::specs::Turns::saying))]
fn say(device: Device, say: Say) -> Turn
    ensures { result ≡ saying device say }
{
    Turn { device, say }
}

fn is_quiet(order: Order, bare: bool) -> bool
    ensures { result ≡ quiet order bare }
{
    match order {
        Order::Xid => true,
        Order::Snrm | Order::Disc | Order::Rr { .. } | Order::Rnr { .. } => !bare,
        Order::Info { .. } | Order::Unknown => false,
    }
}

// At the own address, an order that is no XID.
#[tactic(auto, unfolding(crate::specs::Link::ordered_by))]
fn ordered(device: Device, order: Order, control: u8, m: &[u8]) -> Turn
    ensures { result ≡ ordered_by device order control m.now }
{
    if is_quiet(order, m.is_empty()) {
        return say(device, Say::Silence);
    }
    states::linked(device, device.station.link, order, control, m)
}

fn has_address(link: Link) -> bool
    ensures { result ≡ has_address link }
{
    !matches!(link, Link::NoAddress)
}

// The device with another frame limit.
#[tactic(auto, unfolding(record::specs::Changes::limited_to, record::specs::Changes::device_of))]
fn limited(mut device: Device, limit: usize) -> Device
    ensures { result ≡ limited_to device limit }
{
    device.station.desk.limit = limit;
    device
}

#[tactic(auto, unfolding(crate::specs::Link::agreed_by))]
fn agree(device: Device, offer: Result<Agreed, Malformed>) -> Turn
    ensures { result ≡ agreed_by device offer }
{
    match offer {
        Err(_) => say(device, Say::Silence),
        Ok(Agreed { limit, asked }) => say(limited(device, limit), Say::Negotiated { asked }),
    }
}

// At the own address, an XID: a negotiation, where an address is assigned.
#[tactic(auto, unfolding(crate::specs::Link::negotiated_by))]
fn negotiate(device: Device, m: &[u8]) -> Turn
    ensures { result ≡ negotiated_by device m.now }
{
    if has_address(device.station.link) {
        return agree(device, negotiation::read(device.station.desk.limit, m));
    }
    say(device, Say::Silence)
}

#[tactic(auto, unfolding(crate::specs::Link::own_by))]
fn own(device: Device, control: u8, m: &[u8]) -> Turn
    ensures { result ≡ own_by device control m.now }
{
    if control == control::XID {
        return negotiate(device, m);
    }
    ordered(device, asked(control), control, m)
}

#[tactic(auto, unfolding(crate::specs::Link::xid_by))]
fn by_xid(device: Device, xid: Xid) -> Turn
    ensures { result ≡ xid_by device xid }
{
    match xid {
        Xid::Silence => say(device, Say::Silence),
        Xid::Scan => say(device, Say::Scanned),
        Xid::Assignment { address } => {
            say(
                ending::emptied(device, address, LIMIT_LEAST, Link::AddressAssigned),
                Say::Assigned,
            )
        }
    }
}

#[tactic(auto, unfolding(crate::specs::Link::everyone_by))]
fn everyone(device: Device, control: u8, m: &[u8]) -> Turn
    ensures { result ≡ everyone_by device control m.now }
{
    if control == control::XID {
        return by_xid(device, xid::read(device.plate, m));
    }
    say(device, Say::Silence)
}

#[tactic(auto, unfolding(crate::specs::Link::is_own))]
fn is_own(device: Device, address: u8) -> bool
    ensures { result ≡ is_own device address }
{
    address == device.station.desk.address && address != 0
}

#[tactic(auto, unfolding(crate::specs::Link::addressed_by))]
fn addressed(device: Device, address: u8, control: u8, m: &[u8]) -> Turn
    ensures { result ≡ addressed_by device address control m.now }
{
    if address == ALL_STATIONS {
        return everyone(device, control, m);
    }
    if is_own(device, address) {
        return own(device, control, m);
    }
    say(device, Say::Silence)
}

#[tactic(auto, unfolding(crate::specs::Link::controlled_by))]
fn controlled(device: Device, address: u8, control: u8, m: &[u8]) -> Turn
    ensures { result ≡ controlled_by device address control m.now }
{
    if polls(control) {
        return addressed(device, address, control, m);
    }
    say(device, Say::Silence)
}

// What a decoded frame does to a device, and what the device says.
pub fn judge_frame(device: Device, frame: &[u8]) -> Turn
    ensures { result ≡ judged_frame device frame.now }
{
    if frame.len() < 2 || limits::frame_most(device.station.desk.limit) < frame.len() {
        return say(device, Say::Silence);
    }
    controlled(device, frame[0], frame[1], &frame[2..])
}
