// What the payload of an XID frame to 0xFF means to a device with this plate. Headline: a scan is answered exactly if
// the padded identity under the mask is the value, an assignment taken exactly if all that it names fits, and no
// payload is both (proofs/Exactly.antt). Assumes nothing of its caller: any plate, any octets.
#![tactic(auto)]

ghost use Rattle.std.specs.Prelude.{◌≡◌, true, take, get_or, is_some};
ghost use Rattle.octets.specs.Text.{content};
ghost use Rattle.identity.specs.Bits.{masked};
ghost use Rattle.identity.specs.Identity.{padded, same};
ghost use Rattle.record.specs.Allowed.{identity_of};
ghost use Rattle.params.specs.Field.{octets_in};
ghost use Rattle.params.specs.Walk.{value_at};
ghost use Rattle.xid.specs.Addressing.{addressing, parts_by, values_at};
ghost use Rattle.xid.specs.Match.{scan_shape, assignment_shape, is_scan, is_assignment, scan_matches};
ghost use Rattle.xid.specs.Match.{ends_with, identity_matches, any_or, kind_matches, vendor_matches, meant_to, read_of};

use identity::{BLANK, OCTETS, VENDOR};
use params::{Group, Identifier, Malformed, Place};
use record::{Identity, Plate};

// The device's type: a single-antenna tilt device.
pub const KIND: u8 = 0x01;

// The wild cards of an assignment: they match every device.
const ANY_KIND: [u8; 1] = [0xFF];

const ANY_VENDOR: [u8; VENDOR] = [0xFF, 0xFF];

// The octet of the group of scans and assignments, and its identifiers.
pub const GROUP_OCTET: u8 = 0xF0;

pub const IDENTITY_ID: u8 = 1;

pub const ADDRESS_ID: u8 = 2;

const MASK_ID: u8 = 3;

pub const KIND_ID: u8 = 4;

const VENDOR_ID: u8 = 6;

// One part for each identifier of the group.
#[derive(Clone, Copy)]
struct Parts {
    identity: Option<Place>,
    address: Option<Place>,
    mask: Option<Place>,
    kind: Option<Place>,
    vendor: Option<Place>,
}

// What a payload means: nothing to answer; a scan that is answered; an assignment that is taken.
// Silence is one of 01's answers, so it has its own name beside the other two, and is no `None`.
#[derive(Clone, Copy)]
pub enum Xid {
    Silence,
    Scan,
    Assignment { address: u8 },
}

// ---- what is given

// The group of scans and assignments: its identifiers, and how many octets each may have.
fn addressing() -> Group
    ensures { result ≡ addressing }
{
    let table = [
        Identifier {
            id: IDENTITY_ID,
            least: 1,
            most: OCTETS,
        },
        Identifier {
            id: ADDRESS_ID,
            least: 1,
            most: 1,
        },
        Identifier {
            id: MASK_ID,
            least: 1,
            most: OCTETS,
        },
        Identifier {
            id: KIND_ID,
            least: 1,
            most: 1,
        },
        Identifier {
            id: VENDOR_ID,
            least: VENDOR,
            most: VENDOR,
        },
    ];
    Group {
        octet: GROUP_OCTET,
        table,
    }
}

// The parts that the walk found, by name.
#[tactic(auto, unfolding(crate::specs::Addressing::parts_by, params::specs::Walk::place_in))]
fn parts_by(found: [Option<Place>; params::ROWS]) -> Parts
    ensures { result ≡ parts_by found }
{
    let [identity, address, mask, kind, vendor] = found;
    Parts {
        identity,
        address,
        mask,
        kind,
        vendor,
    }
}

// The octets of a part, none where it is not given.
#[tactic(auto, unfolding(params::specs::Field::octets_in, params::specs::Walk::value_at))]
fn value(payload: &[u8], part: Option<Place>) -> &[u8]
    ensures { result.now ≡ octets_in (value_at payload.now part) }
{
    match part {
        None => &payload[..0],
        Some(place) => params::value_at(payload, place),
    }
}

// ---- a scan

#[tactic(auto, unfolding(crate::specs::Match::scan_shape))]
fn scan_shape(parts: Parts) -> bool
    ensures { result ≡ scan_shape (is_some parts.identity) (is_some parts.address) (is_some parts.mask)
        (is_some parts.kind) (is_some parts.vendor) }
{
    parts.identity.is_some()
        && parts.mask.is_some()
        && parts.address.is_none()
        && parts.kind.is_none()
        && parts.vendor.is_none()
}

#[tactic(auto, using(crate::proofs::Shapes::given_at), unfolding(crate::specs::Match::is_scan, crate::specs::Addressing::values_at))]
fn is_scan(payload: &[u8], parts: Parts) -> bool
    ensures { result ≡ is_scan (values_at payload.now parts) }
{
    scan_shape(parts) && value(payload, parts.identity).len() == value(payload, parts.mask).len()
}

// The identity, padded with 0x20.
fn padded(identity: Identity) -> [u8; OCTETS]
    ensures { result ≡ padded (content identity) }
{
    let mut row = identity.octets;
    row[identity.len.min(OCTETS)..].fill(BLANK);
    row
}

// Whether octets under a mask are the value, which isn't masked.
fn under_mask(s: &[u8], mask: &[u8], value: &[u8]) -> bool
    ensures { result ≡ same (masked s.now mask.now) value.now }
{
    value.len() == s.len().min(mask.len())
        && s.iter().zip(mask).zip(value).all(|((x, m), v)| x & m == *v)
}

#[tactic(auto, unfolding(crate::specs::Match::scan_matches, identity::specs::Identity::answers_scan, crate::specs::Addressing::values_at))]
fn scan_matches(identity: Identity, payload: &[u8], parts: Parts) -> bool
    ensures { result ≡ scan_matches (content identity) (values_at payload.now parts) }
{
    under_mask(
        &padded(identity),
        value(payload, parts.mask),
        value(payload, parts.identity),
    )
}

// ---- an assignment

#[tactic(auto, unfolding(crate::specs::Match::assignment_shape))]
fn assignment_shape(parts: Parts) -> bool
    ensures { result ≡ assignment_shape (is_some parts.address) (is_some parts.mask) }
{
    parts.address.is_some() && parts.mask.is_none()
}

fn first_octet(s: &[u8]) -> u8
    ensures { result ≡ get_or s.now 0 0 }
{
    s.first().copied().unwrap_or(0)
}

// Whether `s` ends with `tail`.
#[tactic(auto, using(crate::proofs::Octetwise::ends_pointwise))]
fn ends_with(s: &[u8], tail: &[u8]) -> bool
    ensures { result ≡ ends_with s.now tail.now }
{
    s.ends_with(tail)
}

#[tactic(auto, unfolding(crate::specs::Match::identity_matches, params::specs::Walk::value_at))]
fn identity_matches(identity: &[u8], payload: &[u8], part: Option<Place>) -> bool
    ensures { result ≡ identity_matches identity.now (value_at payload.now part) }
{
    match part {
        None => true,
        Some(place) => ends_with(identity, params::value_at(payload, place)),
    }
}

// Whether a value is the wild card, or the device's own.
fn any_or(any: &[u8], own: &[u8], asked: &[u8]) -> bool
    ensures { result ≡ any_or any.now own.now asked.now }
{
    compare::same(asked, any) || compare::same(asked, own)
}

#[tactic(auto, unfolding(crate::specs::Match::kind_matches, params::specs::Walk::value_at))]
fn kind_matches(payload: &[u8], part: Option<Place>) -> bool
    ensures { result ≡ kind_matches (value_at payload.now part) }
{
    match part {
        None => true,
        Some(place) => any_or(&ANY_KIND, &[KIND], params::value_at(payload, place)),
    }
}

#[tactic(auto, unfolding(crate::specs::Match::vendor_matches, params::specs::Walk::value_at))]
fn vendor_matches(identity: &[u8], payload: &[u8], part: Option<Place>) -> bool
    ensures { result ≡ vendor_matches identity.now (value_at payload.now part) }
{
    match part {
        None => true,
        Some(place) => {
            let own = octets::part(identity, 0, VENDOR);
            any_or(&ANY_VENDOR, own, params::value_at(payload, place))
        }
    }
}

#[tactic(auto, using(crate::proofs::Judging::assigned_if))]
fn assign(identity: &[u8], payload: &[u8], parts: Parts) -> Xid
    requires { is_assignment (values_at payload.now parts) ≡ true }
    ensures { result ≡ meant_to identity.now (values_at payload.now parts) }
{
    let address = first_octet(value(payload, parts.address));
    if record::is_addressed(address)
        && identity_matches(identity, payload, parts.identity)
        && kind_matches(payload, parts.kind)
        && vendor_matches(identity, payload, parts.vendor)
    {
        Xid::Assignment { address }
    } else {
        Xid::Silence
    }
}

// ---- either, or neither

fn judge(identity: Identity, payload: &[u8], parts: Parts) -> Xid
    ensures { result ≡ meant_to (content identity) (values_at payload.now parts) }
{
    if is_scan(payload, parts) {
        if scan_matches(identity, payload, parts) {
            Xid::Scan
        } else {
            Xid::Silence
        }
    } else if assignment_shape(parts) {
        assign(identity.octets(), payload, parts)
    } else {
        Xid::Silence
    }
}

// What the payload of an XID frame to 0xFF means to a device with this plate.
pub fn read(plate: Plate, payload: &[u8]) -> Xid
    ensures { result ≡ read_of (identity_of plate) payload.now }
{
    match params::walk(payload, addressing()) {
        Ok(parts) => judge(plate.identity, payload, parts_by(parts)),
        Err(Malformed) => Xid::Silence,
    }
}
