// A tilt asked of a drive: whether it is in range, and what becomes of it. The definitions and the laws are those of
// `antenna`. Assumes nothing of its caller.
// Headline: a movement starts only where nothing moves or waits and the tilt asked is in range
// (antenna/proofs/Movements.antt).
#![tactic(auto)]

ghost use Rattle.std.specs.Prelude.{◌≡◌};
ghost use Rattle.antenna.specs.Angles.{at_most};
ghost use Rattle.antenna.specs.Motions.{in_range, aimed_at, Aims};

use antenna::{Angle, Antenna, Motion, Unaimed};

// Whether a tilt is no larger than another.
#[tactic(auto, using(antenna::proofs::Angles::order_at_most))]
pub fn at_most(a: Angle, b: Angle) -> bool
    ensures { result ≡ at_most a b }
{
    a <= b
}

// Whether a tilt is in the antenna's range.
#[tactic(auto, unfolding(antenna::specs::Motions::in_range))]
pub fn in_range(antenna: Antenna, t: Angle) -> bool
    ensures { result ≡ in_range antenna t }
{
    at_most(antenna.drive.lowest, t) && at_most(t, antenna.drive.highest)
}

// A tilt is asked: busy comes before the range. Where no movement starts, the antenna is as it was.
pub fn aim_at(antenna: &mut Antenna, t: Angle) -> Result<(), Unaimed>
    ensures { Aims (aimed_at antenna.old t) antenna.old result antenna.new }
{
    if antenna::busy(antenna.motion) {
        return Err(Unaimed::Busy);
    }
    if !in_range(*antenna, t) {
        return Err(Unaimed::Outside);
    }
    antenna.motion = Motion::Owing { asked: t };
    Ok(())
}
