// Tilts as octets: the tilt that two octets stand for, and the answer that tells one. Assumes nothing of its caller.
// Headline: get tilt -15 is 34 03 00 00 F1 FF, and a tilt told reads back (proofs/Laws.antt).
#![tactic(auto)]

ghost use Rattle.std.specs.Prelude.{◌≡◌};
ghost use Rattle.payload.specs.Payloads.{payload_of, success_of};
ghost use Rattle.tilt.specs.Tilts.{tilt_octets, angle_of};

use antenna::Angle;
use record::Payload;

// The tilt that two octets stand for, the low one first.
#[tactic(auto, unfolding(crate::specs::Tilts::angle_of))]
pub fn angle(low: u8, high: u8) -> Angle
    ensures { result ≡ angle_of low high }
{
    Angle {
        tenths: i16::from_le_bytes([low, high]),
    }
}

// The answer to get tilt.
#[tactic(auto, unfolding(crate::specs::Tilts::tilt_octets, payload::specs::Payloads::success_of))]
pub fn tilt(t: Angle) -> Payload
    ensures { result ≡ payload_of (success_of 0x34 (tilt_octets t)) }
{
    let [low, high] = t.tenths.to_le_bytes();
    payload::laid(0x34, &[0x00, low, high])
}
