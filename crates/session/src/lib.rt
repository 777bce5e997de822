// A session's numbers: what is pending, and which N(R) acknowledges it. Assumes nothing of its caller: any numbers.
// Headline: R moves only where an I-frame is accepted, S only where an answer is acknowledged (conduct/proofs/Numbers.antt).
#![tactic(auto)]

ghost use Rattle.std.specs.Prelude.{◌≡◌};
ghost use Rattle.session.specs.Session.{pends, acknowledges};

use record::{Pending, Session};

// Whether an answer is pending.
pub fn is_pending(pending: Pending) -> bool
    ensures { result ≡ pends pending }
{
    !matches!(pending, Pending::Nothing)
}

// Whether N(R) acknowledges the pending answer.
#[tactic(auto, unfolding(crate::specs::Session::acknowledges))]
pub fn is_acknowledged(session: Session, nr: u8) -> bool
    ensures { result ≡ acknowledges session nr }
{
    is_pending(session.pending) && nr == control::next(session.s)
}
