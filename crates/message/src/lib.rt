// Messages of layer 7: one is checked, in 01's order, and carried out. Assumes nothing of its caller.
// Headline: set tilt alone starts a movement, and exactly where the message is 33 02 00 and two octets, nothing moves
// or waits, and the tilt asked is in range (proofs/Moves.antt); each return code is given exactly when 01 says
// (proofs/Exact.antt).
#![tactic(auto)]

ghost use Rattle.std.specs.Prelude.{◌≡◌, ◌≤◌, length, get_or, Err, IfOk};
ghost use Rattle.octets.specs.Octets.{holds};
ghost use Rattle.refusal.specs.Answer.{answered, refuses};
ghost use Rattle.antenna.specs.declared.Angle.{Angle};
ghost use Rattle.antenna.specs.Motions.{aim_number};
ghost use Rattle.record.specs.declared.Plate.{Plate};
ghost use Rattle.message.specs.Messages.{unsupported, asked_of, own_checks, check_number, drive_checks};
ghost use Rattle.message.specs.Messages.{checks, code_of, table, taken_by, code_for, code_number, Named};
ghost use Rattle.message.specs.Carried.{replied_of, unanswered, quieted, carried_answer, done_by, carried_of};

use antenna::{Alarms, Angle, Antenna, Unaimed};
use record::{Payload, Plate};

// The octets of a message's code and of its data length.
const HEAD: usize = 3;

// Codes of the standard that this device does not carry out.
const UNSUPPORTED: [u8; 12] = [
    0x03, 0x0A, 0x0E, 0x0F, 0x10, 0x11, 0x31, 0x32, 0x40, 0x41, 0x42, 0x90,
];

// What the messages ask that it does.
#[derive(Clone, Copy, PartialEq, Eq)]
enum Procedure {
    AlarmStatus,
    Information,
    ClearAlarms,
    Subscribe,
    SetTilt,
    GetTilt,
}

// Why a message is not carried out.
#[derive(Clone, Copy, PartialEq, Eq)]
enum ReturnCode {
    Busy,
    OutOfRange,
    Unknown,
    WrongLength,
    NotSupported,
}

// What a message finds, and may change.
#[derive(Clone, Copy)]
struct Heeded {
    antenna: Antenna,
    told: Alarms,
    subscribed: bool,
}

// What comes of a message: the payload of its answer, if it has one now, and what the message leaves behind.
#[derive(Clone, Copy)]
pub struct Carried {
    pub reply: Option<Payload>,
    pub antenna: Antenna,
    pub told: Alarms,
    pub subscribed: bool,
}

// ---- the numbers of 01

impl TryFrom<u8> for Procedure {
    type Error = ReturnCode;

    ghost try_from_gives = { Named };

    #[tactic(auto, unfolding(crate::specs::Messages::Named, crate::specs::Messages::code_for, crate::specs::Messages::in_table))]
    fn try_from(code: u8) -> Result<Procedure, ReturnCode> {
        match code {
            0x04 => Ok(Procedure::AlarmStatus),
            0x05 => Ok(Procedure::Information),
            0x06 => Ok(Procedure::ClearAlarms),
            0x12 => Ok(Procedure::Subscribe),
            0x33 => Ok(Procedure::SetTilt),
            0x34 => Ok(Procedure::GetTilt),
            _ => Err(ReturnCode::Unknown),
        }
    }
}

impl Procedure {
    // How many octets of data it has.
    #[tactic(auto, unfolding(crate::specs::Messages::code_for, crate::specs::Messages::taken_by))]
    fn takes(self) -> usize
        ensures { result ≡ taken_by table (code_for self) }
    {
        match self {
            Procedure::SetTilt => 2,
            _ => 0,
        }
    }
}

impl From<ReturnCode> for u8 {
    ghost from_gives = { λ why k. k ≡ code_number why };

    #[tactic(auto, unfolding(crate::specs::Messages::code_number))]
    fn from(why: ReturnCode) -> u8 {
        match why {
            ReturnCode::Busy => 0x05,
            ReturnCode::OutOfRange => 0x13,
            ReturnCode::Unknown => 0x19,
            ReturnCode::WrongLength => 0x24,
            ReturnCode::NotSupported => 0x25,
        }
    }
}

impl From<Unaimed> for ReturnCode {
    ghost from_gives = { λ why k. aim_number (Err why) ≡ refuses (code_number k) };

    #[tactic(auto, unfolding(crate::specs::Messages::code_number, antenna::specs::Motions::aim_number))]
    fn from(why: Unaimed) -> ReturnCode {
        match why {
            Unaimed::Busy => ReturnCode::Busy,
            Unaimed::Outside => ReturnCode::OutOfRange,
        }
    }
}

// ---- the message alone

// The octet at a place of `m`; 0 past its end.
fn octet(m: &[u8], i: usize) -> u8
    ensures { result ≡ get_or m.now i 0 }
{
    m.get(i).copied().unwrap_or(0)
}

// The tilt that a message asks.
fn asked(m: &[u8]) -> Angle
    ensures { result ≡ asked_of m.now }
{
    tilt::angle(octet(m, 3), octet(m, 4))
}

#[tactic(auto, unfolding(octets::specs::Octets::holds))]
fn is_unsupported(code: u8) -> bool
    ensures { result ≡ holds code unsupported }
{
    UNSUPPORTED.contains(&code)
}

// The checks that the message alone decides, in 01's order; what it asks, where none fails.
fn checked(m: &[u8]) -> Result<Procedure, ReturnCode>
    requires { 3 ≤ length m.now }
    ensures number { check_number result ≡ answered (own_checks m.now) tt }
    ensures asks { IfOk result (λ p. code_for p ≡ code_of m.now) }
{
    let code = octet(m, 0);
    let said = usize::from(octets::pair(octet(m, 1), octet(m, 2)));
    let size = m.len() - HEAD;
    if said != size {
        return Err(ReturnCode::WrongLength);
    }
    if is_unsupported(code) {
        return Err(ReturnCode::NotSupported);
    }
    let procedure = Procedure::try_from(code)?;
    if size != procedure.takes() {
        return Err(ReturnCode::WrongLength);
    }
    Ok(procedure)
}

// ---- what comes of it

impl Heeded {
    fn answered(self, payload: Payload) -> Carried
        ensures { result ≡ replied_of payload self.antenna self.told self.subscribed }
    {
        Carried {
            reply: Some(payload),
            antenna: self.antenna,
            told: self.told,
            subscribed: self.subscribed,
        }
    }

    #[tactic(auto, unfolding(crate::specs::Carried::unanswered))]
    fn silent(self) -> Carried
        ensures { result ≡ unanswered self.antenna self.told self.subscribed }
    {
        Carried {
            reply: None,
            antenna: self.antenna,
            told: self.told,
            subscribed: self.subscribed,
        }
    }
}

#[tactic(auto, unfolding(crate::specs::Carried::quieted))]
fn quiet(mut antenna: Antenna) -> Antenna
    ensures { result ≡ quieted antenna }
{
    antenna.drive.raised = antenna::CALM;
    antenna
}

fn set_tilt(heeded: Heeded, t: Angle) -> Result<Carried, ReturnCode>
    ensures { (p : Plate) → carried_answer result
        ≡ answered (drive_checks heeded.antenna 0x33 t) (done_by p heeded.antenna heeded.told heeded.subscribed 0x33 t) }
{
    let mut antenna = heeded.antenna;
    aim::aim_at(&mut antenna, t)?;
    Ok(Heeded { antenna, ..heeded }.silent())
}

#[tactic(auto, unfolding(crate::specs::Messages::drive_checks, crate::specs::Carried::done_by, crate::specs::Carried::carried_answer, crate::specs::Carried::replies, crate::specs::Messages::code_number, refusal::specs::Answer::answered))]
fn get_tilt(heeded: Heeded) -> Result<Carried, ReturnCode>
    ensures { (p : Plate) (t : Angle) → carried_answer result
        ≡ answered (drive_checks heeded.antenna 0x34 t) (done_by p heeded.antenna heeded.told heeded.subscribed 0x34 t) }
{
    if antenna::busy(heeded.antenna.motion) {
        return Err(ReturnCode::Busy);
    }
    Ok(heeded.answered(tilt::tilt(heeded.antenna.drive.tilt)))
}

// What the table says of a procedure, if the drive lets it.
#[tactic(auto, unfolding(crate::specs::Messages::drive_checks, crate::specs::Messages::code_for, crate::specs::Carried::done_by, crate::specs::Carried::carried_answer, crate::specs::Carried::replies, refusal::specs::Answer::answered))]
fn perform(
    plate: Plate,
    heeded: Heeded,
    procedure: Procedure,
    t: Angle,
) -> Result<Carried, ReturnCode>
    ensures { carried_answer result ≡ answered (drive_checks heeded.antenna (code_for procedure) t)
        (done_by plate heeded.antenna heeded.told heeded.subscribed (code_for procedure) t) }
{
    match procedure {
        Procedure::AlarmStatus => Ok(heeded.answered(report::alarms(heeded.antenna.drive.raised))),
        Procedure::Information => Ok(heeded.answered(information::information(plate))),
        Procedure::ClearAlarms => {
            let quieted = Heeded {
                antenna: quiet(heeded.antenna),
                told: antenna::CALM,
                ..heeded
            };
            Ok(quieted.answered(payload::done(0x06)))
        }
        Procedure::Subscribe => {
            let subscriber = Heeded {
                subscribed: true,
                ..heeded
            };
            Ok(subscriber.answered(payload::done(0x12)))
        }
        Procedure::SetTilt => set_tilt(heeded, t),
        Procedure::GetTilt => get_tilt(heeded),
    }
}

// A message of 3 octets or more: what it asks is done, or its return code.
fn attempt(plate: Plate, heeded: Heeded, m: &[u8]) -> Result<Carried, ReturnCode>
    requires { 3 ≤ length m.now }
    ensures { carried_answer result ≡ answered (checks heeded.antenna m.now)
        (done_by plate heeded.antenna heeded.told heeded.subscribed (code_of m.now) (asked_of m.now)) }
{
    let procedure = checked(m)?;
    perform(plate, heeded, procedure, asked(m))
}

// A message is checked and carried out.
#[tactic(auto, unfolding(crate::specs::Carried::carried_of, crate::specs::Carried::carried_answer, crate::specs::Carried::outcome, crate::specs::Carried::replies))]
pub fn carry(plate: Plate, antenna: Antenna, told: Alarms, subscribed: bool, m: &[u8]) -> Carried
    ensures { result ≡ carried_of plate antenna told subscribed m.now }
{
    let heeded = Heeded {
        antenna,
        told,
        subscribed,
    };
    if m.len() < HEAD {
        return heeded.silent();
    }
    match attempt(plate, heeded, m) {
        Ok(carried) => carried,
        Err(why) => heeded.answered(payload::failure(octet(m, 0), u8::from(why))),
    }
}
