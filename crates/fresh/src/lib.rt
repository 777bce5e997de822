// A fresh device: its data judged, its texts laid into a plate, its station empty, its antenna still. The definitions
// and the laws are those of `record`. Assumes nothing of its caller.
// Headline: a fresh device is allowed, and 6 is given exactly where its data is not (record/proofs/Stays.antt,
// record/proofs/Only.antt).
#![tactic(auto)]

ghost use Rattle.std.specs.Prelude.{◌≡◌, true};
ghost use Rattle.refusal.specs.Answer.{made_of};
ghost use Rattle.record.specs.Fresh.{texts_allowed, data_allowed, plate_from, fresh_antenna, fresh_from, fresh_of};
ghost use Rattle.record.specs.Fresh.{blank_device};

use antenna::{Angle, Antenna, Drive, Motion};
use octets::Text;
use record::{Desk, Device, Link, PRODUCT, Plate, Span, Station, VERSION};
use refusal::Refusal;

#[tactic(auto, using(crate::proofs::Data::texts_are))]
fn texts_allowed(identity: &[u8], product: &[u8], hardware: &[u8], software: &[u8]) -> bool
    ensures { result ≡ texts_allowed identity.now product.now hardware.now
        software.now }
{
    identity::allowed(identity)
        && product.len() <= PRODUCT
        && hardware.len() <= VERSION
        && software.len() <= VERSION
}

#[tactic(auto, using(crate::proofs::Data::data_are))]
fn data_allowed(
    identity: &[u8],
    product: &[u8],
    hardware: &[u8],
    software: &[u8],
    antenna: Antenna,
) -> bool
    ensures { result ≡ data_allowed identity.now product.now hardware.now
        software.now antenna }
{
    texts_allowed(identity, product, hardware, software)
        && aim::in_range(antenna, antenna.drive.tilt)
}

fn plate_from(identity: &[u8], product: &[u8], hardware: &[u8], software: &[u8]) -> Plate
    requires { texts_allowed identity.now product.now hardware.now software.now ≡ true }
    ensures { result ≡ plate_from identity.now product.now hardware.now
        software.now }
{
    Plate {
        identity: Text::of(identity),
        product: Text::of(product),
        hardware: Text::of(hardware),
        software: Text::of(software),
    }
}

fn fresh_antenna(lowest: Angle, highest: Angle, present: Angle) -> Antenna
    ensures { result ≡ fresh_antenna lowest highest present }
{
    Antenna {
        motion: Motion::Still,
        drive: Drive {
            lowest,
            highest,
            tilt: present,
            raised: antenna::CALM,
        },
    }
}

fn fresh_from(plate: Plate, antenna: Antenna) -> Device
    ensures { result ≡ fresh_from plate antenna }
{
    let station = Station {
        link: Link::NoAddress,
        desk: Desk {
            address: 0,
            limit: limits::LIMIT_LEAST,
            subscribed: false,
            told: antenna::CALM,
            said: antenna::CALM,
            reply: record::NO_REPLY,
        },
    };
    Device {
        plate,
        station,
        antenna,
    }
}

// The record of no device: it stands wherever there is none.
pub fn blank() -> Device
    ensures { result ≡ blank_device }
{
    let level = Angle { tenths: 0 };
    let plate = Plate {
        identity: Text::of(b""),
        product: Text::of(b""),
        hardware: Text::of(b""),
        software: Text::of(b""),
    };
    fresh_from(plate, fresh_antenna(level, level, level))
}

// A fresh device with this data, or the number for "no".
pub fn fresh(
    identity: &[u8],
    product: &[u8],
    hardware: &[u8],
    software: &[u8],
    span: Span,
) -> Result<Device, Refusal>
    ensures { made_of result ≡ fresh_of identity.now product.now hardware.now
        software.now span }
{
    let antenna = fresh_antenna(span.lowest, span.highest, span.present);
    if !data_allowed(identity, product, hardware, software, antenna) {
        return Err(Refusal::NotAllowed);
    }
    let plate = plate_from(identity, product, hardware, software);
    Ok(fresh_from(plate, antenna))
}
