// The payloads of a device's answers to a scan, to an assignment and to a negotiation. Headline: they are the
// well-formed payloads that 01 and 02 list, the first two with length fields n+8 and n+5 (proofs/Lengths.antt), and who
// reads the third reads the limit agreed on (proofs/Agreement.antt). Assumes nothing of its caller: any plate, any limit.
#![tactic(auto)]

ghost use Rattle.std.specs.Prelude.{◌≡◌, cond, [], ◌+◌, ◌≤◌, length};
ghost use Rattle.std.proofs.lemmas.List.Edits.{sets};
ghost use Rattle.identity.specs.Identity.{width};
ghost use Rattle.record.specs.Allowed.{reply_most, identity_of};
ghost use Rattle.params.specs.Field.{◌is◌, triple_of};
ghost use Rattle.xid_answer.specs.Answer.{opening, scan_answer, assignment_answer, length_value, negotiation_answer};
ghost use Rattle.octets.specs.Puts.{Puts};
ghost use Rattle.payload.specs.Payloads.{payload_of as held};

use control::AskedFor;
use limits::AROUND;
use negotiation::{NEGOTIATING, RECEIVED_ID, RECEIVING_ID, SENDING_ID, SENT_ID};
use octets::Text;
use params::FORMAT;
use record::{Payload, Plate, REPLY};
use xid::{ADDRESS_ID, GROUP_OCTET, IDENTITY_ID, KIND, KIND_ID};

// Puts a triple at a place, as far as there is room, and gives the place behind it.
fn put_param(out: &mut [u8], at: usize, id: u8, value: &[u8]) -> usize
    requires { (at ≤ reply_most) × (length value.now ≤ width) }
    ensures { Puts out.old at (triple_of (id is value.now)) result out.new }
{
    octets::put_all(out, at, &[id, value.len() as u8]);
    octets::put_all(out, at + 2, value);
    at + 2 + value.len()
}

// Puts 0x81, the octet of a group and a length.
fn put_opening(out: &mut [u8], group: u8, len: u8)
    ensures { out.new ≡ sets out.old 0 (opening group len) }
{
    octets::put_all(out, 0, &[FORMAT, group, len]);
}

fn put_scan_answer(out: &mut [u8], identity: &[u8], address: u8) -> usize
    requires { length identity.now ≤ width }
    ensures { Puts out.old 0 (scan_answer identity.now address) result out.new }
{
    put_opening(out, GROUP_OCTET, identity.len() as u8 + 8);
    let a = put_param(out, 3, IDENTITY_ID, identity);
    let b = put_param(out, a, ADDRESS_ID, &[address]);
    put_param(out, b, KIND_ID, &[KIND])
}

fn put_assignment_answer(out: &mut [u8], identity: &[u8]) -> usize
    requires { length identity.now ≤ width }
    ensures { Puts out.old 0 (assignment_answer identity.now) result out.new }
{
    put_opening(out, GROUP_OCTET, identity.len() as u8 + 5);
    let a = put_param(out, 3, IDENTITY_ID, identity);
    put_param(out, a, KIND_ID, &[KIND])
}

// The I-field length of a frame limit, in bits: two octets, highest first.
#[tactic(auto, using(crate::proofs::Stored::length_octets))]
fn length_value(limit: usize) -> [u8; 2]
    ensures { result ≡ length_value limit }
{
    // Of 8192 octets the bits are 65536, which two octets have no room for.
    let most = limit.saturating_sub(AROUND);
    ((most % 8192 * 8) as u16).to_be_bytes()
}

// How many octets a triple of `count` octets takes: none where it was not asked.
fn if_asked(asked: bool, count: u8) -> u8
    ensures { (result ≡ cond asked count 0) × (result ≤ count) }
{
    if asked { count } else { 0 }
}

// Puts a triple at a place where it was asked, and gives the place behind it.
fn put_if(out: &mut [u8], at: usize, asked: bool, id: u8, value: &[u8]) -> usize
    requires { (at ≤ reply_most) × (length value.now ≤ width) }
    ensures { Puts out.old at (cond asked (triple_of (id is value.now)) []) result
        out.new × (result ≤ at + (length value.now + 2)) }
{
    if asked {
        return put_param(out, at, id, value);
    }
    at
}

// How many octets the triples of the answer to a negotiation take.
fn field_length(asked: AskedFor) -> u8
    ensures { result ≡ cond asked.sent 4 0 + cond asked.received 4 0 + cond asked.sending 3 0
        + cond asked.receiving 3 0 }
{
    if_asked(asked.sent, 4)
        + if_asked(asked.received, 4)
        + if_asked(asked.sending, 3)
        + if_asked(asked.receiving, 3)
}

fn put_negotiation_answer(out: &mut [u8], asked: AskedFor, limit: usize) -> usize
    ensures { Puts out.old 0 (negotiation_answer asked limit) result out.new }
{
    let bits = length_value(limit);
    let window = [1];
    put_opening(out, NEGOTIATING, field_length(asked));
    let a = put_if(out, 3, asked.sent, SENT_ID, &bits);
    let b = put_if(out, a, asked.received, RECEIVED_ID, &bits);
    let c = put_if(out, b, asked.sending, SENDING_ID, &window);
    put_if(out, c, asked.receiving, RECEIVING_ID, &window)
}

// The payload of the answer to a scan: identity, address, type.
pub fn scan_answer(plate: Plate, address: u8) -> Payload
    ensures { result ≡ held (scan_answer (identity_of plate) address) }
{
    let mut octets = [0u8; REPLY];
    let len = put_scan_answer(&mut octets, plate.identity.octets(), address);
    Text { octets, len }
}

// The payload of the answer to an assignment: identity, type.
pub fn assignment_answer(plate: Plate) -> Payload
    ensures { result ≡ held (assignment_answer (identity_of plate)) }
{
    let mut octets = [0u8; REPLY];
    let len = put_assignment_answer(&mut octets, plate.identity.octets());
    Text { octets, len }
}

// The payload of the answer to a negotiation that asked these, with the frame limit that was agreed.
pub fn negotiation_answer(asked: AskedFor, limit: usize) -> Payload
    ensures { result ≡ held (negotiation_answer asked limit) }
{
    let mut octets = [0u8; REPLY];
    let len = put_negotiation_answer(&mut octets, asked, limit);
    Text { octets, len }
}
