// The codec and the receiver for a program in C: check, decode, write, receive, on numbers and byte slices
// (include/gorittaem.h).
// An answer crosses as a number: how many octets stand at the start of the lent output, or 0x10000 and the refusal's
// number. Assumes of a caller in C what a slice is: a pointer that may be read or written for its whole length, and no
// part of an output in an input; of a receiver's block and of the number taken, a pointer that is good for 267 octets and for
// one number, and no part of one of them in another.
#![tactic(auto)]

ghost use Rattle.std.specs.Prelude.{◌≡◌, length};
ghost use Rattle.refusal.specs.Answer.{answer_of};
ghost use Rattle.fcs.specs.Check.{check_of};
ghost use Rattle.limits.specs.Limits.{limit_least};
ghost use Rattle.frame.specs.Decode.{decoded};
ghost use Rattle.frame.specs.Write.{written};
ghost use Rattle.receiver.specs.Call.{received};
ghost use Rattle.block.specs.Block.{held_in};
ghost use Rattle.capi.specs.Crossing.{crossed, Crosses, Hears};

use block::BLOCK;
use limits::LIMIT_LEAST;
use refusal::Refusal;

// What a refusal's number is added to.
const REFUSED: usize = 0x10000;

// The number that an answer crosses as.
fn crossing(answer: Result<usize, Refusal>) -> usize
    ensures { result ≡ crossed (answer_of answer) }
{
    match answer {
        Ok(n) => n,
        Err(refusal) => REFUSED + refusal::number(refusal) as usize,
    }
}

// The check of the octets of `s`.
pub fn gorittaem_check(s: &[u8]) -> u16
    ensures { result ≡ check_of s.now }
{
    fcs::check(s)
}

// Decodes what lies between two flags: address, control and payload to the start of `out`.
pub fn gorittaem_decode(src: &[u8], out: &mut [u8]) -> usize
    ensures { Crosses (decoded limit_least src.now (length out.old))
        out.old result out.new }
{
    let answer = frame::decode(LIMIT_LEAST, src, out);
    crossing(answer)
}

// The same, with the frame limit `limit`: the C interface has two of each.
pub fn gorittaem_decode_n(limit: usize, src: &[u8], out: &mut [u8]) -> usize
    ensures { Crosses (decoded limit src.now (length out.old))
        out.old result out.new }
{
    let answer = frame::decode(limit, src, out);
    crossing(answer)
}

// Writes flag, frame, flag to the start of `out`.
pub fn gorittaem_write(address: u8, control: u8, payload: &[u8], out: &mut [u8]) -> usize
    ensures { Crosses (written limit_least address control payload.now (length out.old))
        out.old result out.new }
{
    let answer = writer::write(LIMIT_LEAST, address, control, payload, out);
    crossing(answer)
}

// The same, with the frame limit `limit`.
pub fn gorittaem_write_n(
    limit: usize,
    address: u8,
    control: u8,
    payload: &[u8],
    out: &mut [u8],
) -> usize
    ensures { Crosses (written limit address control payload.now (length out.old))
        out.old result out.new }
{
    let answer = writer::write(limit, address, control, payload, out);
    crossing(answer)
}

// Takes octets of `run` into the receiver whose record `block` holds, up to and with the first flag that hands something out,
// to the start of `out`. The answer is 0 where nothing was handed out; `taken` gets how many, where the call is not refused.
pub fn gorittaem_receive(
    block: &mut [u8; BLOCK],
    limit: usize,
    run: &[u8],
    out: &mut [u8],
    taken: &mut usize,
) -> usize
    ensures { Hears (received limit (held_in block.old) run.now (length out.old))
        block.old out.old taken.old result
        block.new out.new taken.new }
{
    match block::receive(block, limit, run, out) {
        Ok(told) => {
            *taken = told.taken;
            match told.handed {
                None => 0,
                Some(answer) => crossing(answer),
            }
        }
        Err(refusal) => crossing(Err(refusal)),
    }
}
