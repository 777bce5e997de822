// Payloads of layer 7: code, length and data at the start of 74 zeros; successes and failures.
// Assumes nothing of its caller.
// Headline: no payload has more than 74 octets (proofs/Laws.antt).
#![tactic(auto)]

ghost use Rattle.std.specs.Prelude.{◌≡◌, [], take};
ghost use Rattle.payload.specs.Payloads.{payload_of, message_of, success_of, failure_of, body_most};

use octets::Text;
use record::Payload;

// Code, data length (low octet first), data; of more than 71 octets of data, the first 71.
pub fn laid(code: u8, body: &[u8]) -> Payload
    ensures { result ≡ payload_of (message_of code (take body_most body.now)) }
{
    let n = body.len().min(71);
    let mut octets = [0u8; 74];
    octets[0] = code;
    octets[1] = (n % 256) as u8;
    octets[2] = (n / 256 % 256) as u8;
    octets::put_all(&mut octets, 3, &body[..n]);
    Text { octets, len: n + 3 }
}

// A failure, with its return code.
#[tactic(auto, unfolding(crate::specs::Payloads::failure_of, crate::specs::Payloads::message_of))]
pub fn failure(code: u8, why: u8) -> Payload
    ensures { result ≡ payload_of (failure_of code why) }
{
    laid(code, &[0x0B, why])
}

// A success with no data out.
#[tactic(auto, unfolding(crate::specs::Payloads::success_of))]
pub fn done(code: u8) -> Payload
    ensures { result ≡ payload_of (success_of code []) }
{
    laid(code, &[0x00])
}
