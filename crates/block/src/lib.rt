// A receiver whose record is a block of octets that the caller lends, for programs that know no structs of ours: the store,
// the count in two octets, low one first, and five octets that each stand for a yes or a no. All zeros is a fresh one.
// Assumes nothing of its caller: any octets may be handed in.
#![tactic(auto)]

ghost use Rattle.std.specs.Prelude.{◌≡◌, length};
ghost use Rattle.receiver.specs.Call.{received};
ghost use Rattle.block.specs.Block.{marks_size, block_size, yes_octet, marks_in, marks_octets, held_in, Blocks};

use receiver::{PLACES, Received, Receiver};
use refusal::Refusal;

// The octets behind the store, and those of a whole block.
const MARKS: usize = 7;

pub const BLOCK: usize = PLACES + MARKS;

// The record that the octets behind the store stand for.
#[tactic(auto, unfolding(crate::specs::Block::marks_in))]
fn marks(t: &[u8]) -> Receiver
    requires { length t.now ≡ marks_size }
    ensures { result ≡ marks_in t.now }
{
    Receiver {
        count: usize::from(octets::pair(t[0], t[1])),
        more: t[2] != 0,
        escaping: t[3] != 0,
        last: t[4] != 0,
        any: t[5] != 0,
        seen: t[6] != 0,
    }
}

// The octet of a yes or a no.
#[tactic(auto, using(crate::proofs::Parts::yes_byte))]
fn yes_octet(b: bool) -> u8
    ensures { result ≡ yes_octet b }
{
    u8::from(b)
}

// Writes a record there.
#[tactic(auto, unfolding(crate::specs::Block::marks_octets))]
fn put_marks(receiver: Receiver, t: &mut [u8])
    requires { length t.old ≡ marks_size }
    ensures { t.new ≡ marks_octets receiver }
{
    let [low, high, ..] = receiver.count.to_le_bytes();
    // One by one: as one row, they are put together in memory first, and a run of one octet takes a quarter longer or more.
    t[0] = low;
    t[1] = high;
    t[2] = yes_octet(receiver.more);
    t[3] = yes_octet(receiver.escaping);
    t[4] = yes_octet(receiver.last);
    t[5] = yes_octet(receiver.any);
    t[6] = yes_octet(receiver.seen);
}

// The call, with the block as a slice, of which parts can be lent.
fn receive_by(
    block: &mut [u8],
    limit: usize,
    run: &[u8],
    out: &mut [u8],
) -> Result<Received, Refusal>
    requires { length block.old ≡ block_size }
    ensures { Blocks (received limit (held_in block.old) run.now (length out.old))
        block.old out.old result block.new out.new }
{
    let at = PLACES;
    let mut held = marks(&block[at..]);
    let received = receiver::receive_in(&mut held, limit, run, &mut block[..at], out)?;
    put_marks(held, &mut block[at..]);
    Ok(received)
}

// Octets received: as `receiver::receive`, with the record in `block`.
pub fn receive(
    block: &mut [u8; BLOCK],
    limit: usize,
    run: &[u8],
    out: &mut [u8],
) -> Result<Received, Refusal>
    ensures { Blocks (received limit (held_in block.old) run.now (length out.old))
        block.old out.old result block.new out.new }
{
    receive_by(block, limit, run, out)
}
