// What a device tells of itself: product, serial number, hardware and software.
// Assumes nothing of its caller: any record of the type may be handed in.
// Headline: it never has more than 73 octets (proofs/Laws.antt).
#![tactic(auto)]

ghost use Rattle.std.specs.Prelude.{◌≡◌, ◌+◌, ◌-◌, ◌≤◌, length};
ghost use Rattle.payload.specs.Payloads.{payload_of, success_of};
ghost use Rattle.octets.specs.Puts.{Puts};
ghost use Rattle.information.specs.Information.{text_of, without_vendor, information_of};

use identity::VENDOR;
use record::{Payload, Plate};

// A text after its length.
fn put_text(text: &[u8], out: &mut [u8], at: usize) -> usize
    requires { (at ≤ 71) × (length text.now ≤ 20) }
    ensures put { Puts out.old at (text_of text.now) result out.new }
    ensures end { result ≡ at + 1 + length text.now }
{
    octets::put(out, at, text.len() as u8);
    octets::put_all(out, at + 1, text);
    at + 1 + text.len()
}

// The serial number: what follows the two vendor octets.
fn serial(identity: &[u8]) -> &[u8]
    ensures all { result.now ≡ without_vendor identity.now }
    ensures few { length result.now ≡ length identity.now - VENDOR }
{
    octets::part(identity, VENDOR, identity.len())
}

// The answer to information.
pub fn information(plate: Plate) -> Payload
    ensures { result ≡ payload_of (success_of 0x05 (information_of plate)) }
{
    let mut body = [0u8; 71];
    body[0] = 0x00;
    let a = put_text(plate.product.octets(), &mut body, 1);
    let b = put_text(serial(plate.identity.octets()), &mut body, a);
    let c = put_text(plate.hardware.octets(), &mut body, b);
    let d = put_text(plate.software.octets(), &mut body, c);
    payload::laid(0x05, &body[..d])
}
