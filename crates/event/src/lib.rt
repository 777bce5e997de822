// What happens to a device: the motor stopped, an alarm rose, an alarm fell. The definitions and the laws are those of
// `record` and `antenna`. Assumes nothing of its caller: any record of the type may be handed in.
// Headline: an allowed record stays allowed under every event; 6 and 8 are given exactly when 01 says
// (record/proofs/Stays.antt, record/proofs/Only.antt); a stop makes a result that waits exactly where one was owed
// (antenna/proofs/Movements.antt).
#![tactic(auto)]

ghost use Rattle.std.specs.Prelude.{◌≡◌};
ghost use Rattle.refusal.specs.Answer.{Changes};
ghost use Rattle.antenna.specs.Motions.{runs};
ghost use Rattle.antenna.specs.Events.{rested_of, stopped_at, alarmed_of};
ghost use Rattle.record.specs.Changes.{antenna_happened, happened};

use antenna::{Angle, Antenna, Motion};
use record::{Device, Event};
use refusal::Refusal;

// ---- the motor

// Whether a movement is running.
fn is_running(motion: Motion) -> bool
    ensures { result ≡ runs motion }
{
    match motion {
        Motion::Still => false,
        Motion::Moving => true,
        Motion::Owing { asked: _ } => true,
        Motion::Stopped { reached: _ } => false,
    }
}

// The motion after a stop at `t`: success exactly if t is the tilt asked.
fn rested(motion: Motion, t: Angle) -> Motion
    ensures { result ≡ rested_of motion t }
{
    match motion {
        Motion::Still => Motion::Still,
        Motion::Moving => Motion::Still,
        Motion::Owing { asked } => Motion::Stopped {
            reached: asked.tenths == t.tenths,
        },
        Motion::Stopped { reached } => Motion::Stopped { reached },
    }
}

// The motor stopped at `t`.
fn stopped(antenna: &mut Antenna, t: Angle) -> Result<(), Refusal>
    ensures { Changes (stopped_at antenna.old t) antenna.old result antenna.new }
{
    if !is_running(antenna.motion) || !aim::in_range(*antenna, t) {
        return Err(Refusal::CannotBe);
    }
    antenna.motion = rested(antenna.motion, t);
    antenna.drive.tilt = t;
    Ok(())
}

// ---- an alarm

// An alarm rises (`on`) or falls.
fn alarmed(antenna: &mut Antenna, code: u8, on: bool) -> Result<(), Refusal>
    ensures { Changes (alarmed_of antenna.old code on) antenna.old result antenna.new }
{
    let place = octets::find(code, &antenna::CODES);
    if 6 <= place {
        return Err(Refusal::CannotBe);
    }
    antenna.drive.raised.flags[place] = on;
    Ok(())
}

// ---- any of them

fn antenna_after(antenna: &mut Antenna, event: Event) -> Result<(), Refusal>
    ensures { Changes (antenna_happened antenna.old event) antenna.old result antenna.new }
{
    match event {
        Event::Stopped(t) => stopped(antenna, t),
        Event::Raised(alarm) => alarmed(antenna, alarm, true),
        Event::Cleared(alarm) => alarmed(antenna, alarm, false),
    }
}

// An event happens to a device; where it is refused, the device is as it was.
pub fn happen(device: &mut Device, event: Event) -> Result<(), Refusal>
    ensures { Changes (happened device.old event) device.old result device.new }
{
    if !record::allowed(*device) {
        return Err(Refusal::NotAllowed);
    }
    antenna_after(&mut device.antenna, event)
}
