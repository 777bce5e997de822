// Longer frames by negotiation: what the payload of an XID frame to the own address asks of the link, whose frame limit
// is `limit`. Headline: the limit agreed is the whole octets in the smaller length asked and 4 more, 78 to 260,
// exactly; none asked keeps it (proofs/Exactly.antt). Assumes nothing of its caller: any octets, any limit.
#![tactic(auto)]

ghost use Rattle.std.specs.Prelude.{◌≡◌, ◌*◌, min, take, drop, is_some};
ghost use Rattle.limits.specs.Limits.{limit_most, payload_most};
ghost use Rattle.params.specs.Walk.{part_in, value_at};
ghost use Rattle.negotiation.specs.Negotiation.{negotiating, bits_in, smaller_of, limit_for, limit_asked, offer_of};

use control::AskedFor;
use limits::{AROUND, LONGEST_PAYLOAD, PAYLOAD_MOST};
use params::{Group, Identifier, Malformed, Place};

// The octet of the group of a negotiation, and its identifiers: I-field lengths and windows, sent and received.
pub const NEGOTIATING: u8 = 0x80;

pub const SENT_ID: u8 = 5;

pub const RECEIVED_ID: u8 = 6;

pub const SENDING_ID: u8 = 7;

pub const RECEIVING_ID: u8 = 8;

// The most octets of a length, and of a window.
const LENGTH_OCTETS: usize = 4;

const WINDOW_OCTETS: usize = 1;

// What a negotiation comes to: the frame limit from now on, and what was asked.
#[derive(Clone, Copy)]
pub struct Agreed {
    pub limit: usize,
    pub asked: AskedFor,
}

// The group of a negotiation: its identifiers, and how many octets each may have. A table has five rows, and no length fits the
// last.
fn negotiating() -> Group
    ensures { result ≡ negotiating }
{
    let table = [
        Identifier {
            id: SENT_ID,
            least: 1,
            most: LENGTH_OCTETS,
        },
        Identifier {
            id: RECEIVED_ID,
            least: 1,
            most: LENGTH_OCTETS,
        },
        Identifier {
            id: SENDING_ID,
            least: 1,
            most: WINDOW_OCTETS,
        },
        Identifier {
            id: RECEIVING_ID,
            least: 1,
            most: WINDOW_OCTETS,
        },
        Identifier {
            id: 0,
            least: 1,
            most: 0,
        },
    ];
    Group {
        octet: NEGOTIATING,
        table,
    }
}

// The number that the octets at a place stand for, highest first; past the most bits of a payload, some number past them.
fn bits_at(payload: &[u8], place: Place) -> usize
    ensures { min result (payload_most limit_most * 8)
        ≡ min (bits_in (take place.len (drop place.from payload.now))) (payload_most limit_most * 8) }
{
    params::value_at(payload, place).iter().fold(
        0,
        |n, x| n.saturating_mul(256).saturating_add(octets::wide(*x)),
    )
}

// The frame limit that a length asks for.
#[tactic(auto, unfolding(crate::specs::Negotiation::limit_for))]
fn limit_for(bits: usize) -> usize
    ensures { result ≡ limit_for bits }
{
    (bits / 8).clamp(PAYLOAD_MOST, LONGEST_PAYLOAD) + AROUND
}

// The frame limit after `limit` where these lengths are asked.
fn limit_asked(payload: &[u8], limit: usize, sent: Option<Place>, received: Option<Place>) -> usize
    ensures { result ≡ limit_asked limit (smaller_of (value_at payload.now sent)
        (value_at payload.now received)) }
{
    match (sent, received) {
        (None, None) => limit,
        (Some(place), None) => limit_for(bits_at(payload, place)),
        (None, Some(place)) => limit_for(bits_at(payload, place)),
        (Some(a), Some(b)) => limit_for(bits_at(payload, a).min(bits_at(payload, b))),
    }
}

// Which identifiers have a part, each at its place in the table.
fn asked_by(parts: [Option<Place>; params::ROWS]) -> AskedFor
    ensures { (result.sent ≡ is_some (part_in parts 0)) × (result.received ≡ is_some (part_in parts 1))
        × (result.sending ≡ is_some (part_in parts 2)) × (result.receiving ≡ is_some (part_in parts 3)) }
{
    AskedFor {
        sent: parts[0].is_some(),
        received: parts[1].is_some(),
        sending: parts[2].is_some(),
        receiving: parts[3].is_some(),
    }
}

// What the payload of an XID frame to the own address asks of a link with the frame limit `limit`.
pub fn read(limit: usize, payload: &[u8]) -> Result<Agreed, Malformed>
    ensures { result ≡ offer_of limit payload.now }
{
    let parts = params::walk(payload, negotiating())?;
    Ok(Agreed {
        limit: limit_asked(payload, limit, parts[0], parts[1]),
        asked: asked_by(parts),
    })
}
