// One drive: its range, its tilt, its movement and its alarms. What is asked of it is in `aim`, what happens to it in
// `event`; the definitions of both and the laws about them are here. Assumes nothing of its caller.
// Headline: a movement starts only where nothing moves or waits and the tilt asked is in range (proofs/Movements.antt).
#![tactic(auto)]

ghost use Rattle.std.specs.Prelude.{◌≡◌};
ghost use Rattle.antenna.specs.Alarms.{any_differ};
ghost use Rattle.antenna.specs.Motions.{busy_of};

// Tenths of a degree.
#[derive(Clone, Copy, PartialEq, Eq, PartialOrd, Ord)]
pub struct Angle {
    pub tenths: i16,
}

// A flag for each alarm code that there is, in ascending order of the codes.
#[derive(Clone, Copy)]
pub struct Alarms {
    pub flags: [bool; 6],
}

pub const CODES: [u8; 6] = [0x02, 0x03, 0x0E, 0x0F, 0x11, 0x27];

// No alarm.
pub const CALM: Alarms = Alarms { flags: [false; 6] };

// Nothing moves or waits; a movement that owes nothing; one whose result is owed; a result that waits.
#[derive(Clone, Copy)]
pub enum Motion {
    Still,
    Moving,
    Owing { asked: Angle },
    Stopped { reached: bool },
}

// All of an antenna but its motion.
#[derive(Clone, Copy)]
pub struct Drive {
    pub lowest: Angle,
    pub highest: Angle,
    pub tilt: Angle,
    pub raised: Alarms,
}

#[derive(Clone, Copy)]
pub struct Antenna {
    pub motion: Motion,
    pub drive: Drive,
}

// Why a tilt that is asked starts no movement.
#[derive(Clone, Copy, PartialEq, Eq)]
pub enum Unaimed {
    Busy,
    Outside,
}

// Whether something moves or waits.
pub fn busy(motion: Motion) -> bool
    ensures { result ≡ busy_of motion }
{
    !matches!(motion, Motion::Still)
}

// Whether two rows of alarm flags differ somewhere.
#[tactic(auto, using(crate::proofs::Differences::apart_differ))]
pub fn differ(a: [bool; 6], b: [bool; 6]) -> bool
    ensures { result ≡ any_differ a b }
{
    a != b
}
