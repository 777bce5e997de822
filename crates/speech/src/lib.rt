// What a device says, as the octets of a frame: address, control, payload.
// Headline: an answer has at most 76 octets and carries the device's address (device/proofs/Fits.antt).
// Assumes nothing of its caller.
#![tactic(auto)]

ghost use Rattle.std.specs.Prelude.{◌≡◌, [], ◌∷◌, ◌≤◌, length, IfSome};
ghost use Rattle.octets.specs.Text.{laid};
ghost use Rattle.record.specs.Allowed.{reply_most};
ghost use Rattle.speech.specs.Speech.{octets_held, pending_octets, link_octets, is_silent, control_by, payload_by};
ghost use Rattle.speech.specs.Speech.{frame_by, spoken_most, spoken_of};

use octets::Text;
use record::{Desk, Device, Link, Payload, Pending, REPLY};
use station::Say;

// The most octets of a frame that is said: address, control, and the longest payload.
pub const SPOKEN_MOST: usize = REPLY + 2;

fn reject(control: u8, counts: u8, why: u8) -> Payload
    ensures { octets_held result ≡ control ∷ counts ∷ why ∷ [] }
{
    let mut octets = [0u8; REPLY];
    octets[0] = control;
    octets[1] = counts;
    octets[2] = why;
    Text { octets, len: 3 }
}

#[tactic(auto, unfolding(crate::specs::Speech::pending_octets))]
fn pending_payload(desk: Desk, pending: Pending) -> Payload
    ensures { octets_held result ≡ pending_octets desk pending }
{
    match pending {
        Pending::Nothing => record::NO_REPLY,
        Pending::Answer => desk.reply,
        Pending::Indication => report::indication(desk.said, desk.told),
    }
}

#[tactic(auto, unfolding(crate::specs::Speech::link_octets))]
fn link_payload(desk: Desk, link: Link) -> Payload
    ensures { octets_held result ≡ link_octets desk link }
{
    match link {
        Link::NoAddress | Link::AddressAssigned => record::NO_REPLY,
        Link::Connected(s) => pending_payload(desk, s.pending),
    }
}

fn is_silent(say: Say) -> bool
    ensures { result ≡ is_silent say }
{
    matches!(say, Say::Silence)
}

#[tactic(auto, unfolding(crate::specs::Speech::control_by))]
fn control_of(say: Say) -> u8
    ensures { result ≡ control_by say }
{
    match say {
        Say::Silence => 0,
        Say::Bare { control } | Say::Pend { control } => control,
        Say::Reject { .. } => 0x97,
        Say::Scanned | Say::Assigned | Say::Negotiated { .. } => control::XID,
    }
}

#[tactic(auto, unfolding(crate::specs::Speech::payload_by))]
fn payload_of(device: Device, say: Say) -> Payload
    ensures { octets_held result ≡ payload_by device say }
{
    let desk = device.station.desk;
    match say {
        Say::Silence | Say::Bare { .. } => record::NO_REPLY,
        Say::Reject {
            control,
            counts,
            why,
        } => reject(control, counts, why),
        Say::Pend { .. } => link_payload(desk, device.station.link),
        Say::Scanned => xid_answer::scan_answer(device.plate, desk.address),
        Say::Assigned => xid_answer::assignment_answer(device.plate),
        Say::Negotiated { asked } => xid_answer::negotiation_answer(asked, desk.limit),
    }
}

// Address and control in front of a payload.
fn laid(address: u8, control: u8, payload: &[u8]) -> Text<SPOKEN_MOST>
    requires { length payload.now ≤ reply_most }
    ensures all { result ≡ laid spoken_most (address ∷ control ∷ payload.now) }
    ensures few { result.len ≤ spoken_most }
{
    let mut octets = [0u8; SPOKEN_MOST];
    octets[0] = address;
    octets[1] = control;
    octets::put_all(&mut octets, 2, payload);
    Text {
        octets,
        len: payload.len() + 2,
    }
}

// The frame that a device says; none where it is silent.
pub fn speak(device: Device, say: Say) -> Option<Text<SPOKEN_MOST>>
    ensures all { result ≡ spoken_of (frame_by device say) }
    ensures few { IfSome result (λ t. t.len ≤ spoken_most) }
{
    if is_silent(say) {
        return None;
    }
    let payload = payload_of(device, say);
    let address = device.station.desk.address;
    Some(laid(address, control_of(say), payload.octets()))
}
