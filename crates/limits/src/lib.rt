// The frame limit N, the most octets of address, control, payload and check: 78, and up to 260 by negotiation; and what
// follows from it. Assumes nothing of its caller: any number may be handed in.
#![tactic(auto)]

ghost use Rattle.std.specs.Prelude.{◌≡◌};
ghost use Rattle.limits.specs.Limits.{is_limit, frame_most};

// The limit where none was negotiated, which is the least one, and the largest.
pub const LIMIT_LEAST: usize = 78;

pub const LIMIT_MOST: usize = 260;

// The octets of a check, and those around a payload: address, control and check.
const CHECK: usize = 2;

pub const AROUND: usize = 2 + CHECK;

// What follows from them: the most octets of a payload, of a frame without its check, and of a line with its flags. With the least
// limit, and LONGEST with the largest.
pub const PAYLOAD_MOST: usize = LIMIT_LEAST - AROUND;

pub const LONGEST_PAYLOAD: usize = LIMIT_MOST - AROUND;

pub const LINE_MOST: usize = 2 * LIMIT_LEAST + 2;

pub const LONGEST_FRAME: usize = LIMIT_MOST - CHECK;

pub const LONGEST_LINE: usize = 2 * LIMIT_MOST + 2;

// Whether a number is a frame limit: 78 to 260.
#[tactic(auto, unfolding(crate::specs::Limits::is_limit))]
pub fn is_limit(n: usize) -> bool
    ensures { result ≡ is_limit n }
{
    LIMIT_LEAST <= n && n <= LIMIT_MOST
}

// The most octets of a frame without its check.
pub fn frame_most(limit: usize) -> usize
    ensures { result ≡ frame_most limit }
{
    limit.saturating_sub(CHECK)
}
