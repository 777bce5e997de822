// What a device reports of its alarms: those that are raised, and those that have changed since it last told.
// Assumes nothing of its caller: any record of the type may be handed in.
// Headline: an indication says nothing exactly if nothing differs (proofs/Laws.antt).
#![tactic(auto)]

ghost use Rattle.std.specs.Prelude.{◌≡◌, ◌∷◌};
ghost use Rattle.antenna.specs.Alarms.{codes_of, changes_of};
ghost use Rattle.payload.specs.Payloads.{payload_of, success_of};
ghost use Rattle.report.specs.Reports.{indication_of};
ghost use Rattle.octets.specs.Puts.{Puts};

use antenna::Alarms;
use record::Payload;

// Success, and the codes of the alarms whose flags are set, ascending.
fn put_codes(flags: [bool; 6], out: &mut [u8]) -> usize
    ensures { Puts out.old 0 (0x00 ∷ codes_of flags) result out.new }
{
    let codes = antenna::CODES;
    octets::put(out, 0, 0x00);
    let mut n = 1;
    for i in 0..6 {
        if !flags[i] {
            continue;
        }
        octets::put(out, n, codes[i]);
        n += 1;
    }
    n
}

// The answer to alarm status.
pub fn alarms(raised: Alarms) -> Payload
    ensures { result ≡ payload_of (success_of 0x04 (codes_of raised.flags)) }
{
    let mut body = [0u8; 71];
    let n = put_codes(raised.flags, &mut body);
    payload::laid(0x04, &body[..n])
}

// The pairs of the alarms whose flags differ, ascending.
fn put_changes(present: [bool; 6], told: [bool; 6], out: &mut [u8]) -> usize
    ensures { Puts out.old 0 (changes_of present told) result out.new }
{
    let known = antenna::CODES;
    let mut n = 0;
    for i in 0..6 {
        let on = present[i];
        let was = told[i];
        if on == was {
            continue;
        }
        octets::put(out, n, known[i]);
        octets::put(out, n + 1, u8::from(on));
        n += 2;
    }
    n
}

// The alarm indication.
pub fn indication(present: Alarms, told: Alarms) -> Payload
    ensures { result ≡ payload_of (indication_of present told) }
{
    let mut body = [0u8; 71];
    let n = put_changes(present.flags, told.flags, &mut body);
    payload::laid(0x07, &body[..n])
}
