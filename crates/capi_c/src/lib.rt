// The exports of capi, as a static library for a program in C (include/gorittaem.h): each calls the function of its name there and
// promises the same, since an export for C stands in a crate of its own. Assumes of a caller in C what capi says.
#![tactic(auto)]

ghost use Rattle.std.specs.Prelude.{◌≡◌, length};
ghost use Rattle.fcs.specs.Check.{check_of};
ghost use Rattle.limits.specs.Limits.{limit_least};
ghost use Rattle.frame.specs.Decode.{decoded};
ghost use Rattle.frame.specs.Write.{written};
ghost use Rattle.receiver.specs.Call.{received};
ghost use Rattle.block.specs.Block.{held_in};
ghost use Rattle.capi.specs.Crossing.{Crosses, Hears};

use block::BLOCK;

// The check of the octets of `s`.
#[unsafe(no_mangle)]
pub extern "C" fn gorittaem_check(s: &[u8]) -> u16
    ensures { result ≡ check_of s.now }
{
    capi::gorittaem_check(s)
}

// Decodes what lies between two flags: address, control and payload to the start of `out`.
#[unsafe(no_mangle)]
pub extern "C" fn gorittaem_decode(src: &[u8], out: &mut [u8]) -> usize
    ensures { Crosses (decoded limit_least src.now (length out.old))
        out.old result out.new }
{
    capi::gorittaem_decode(src, out)
}

// The same, with the frame limit `limit`.
#[unsafe(no_mangle)]
pub extern "C" fn gorittaem_decode_n(limit: usize, src: &[u8], out: &mut [u8]) -> usize
    ensures { Crosses (decoded limit src.now (length out.old))
        out.old result out.new }
{
    capi::gorittaem_decode_n(limit, src, out)
}

// Writes flag, frame, flag to the start of `out`.
#[unsafe(no_mangle)]
pub extern "C" fn gorittaem_write(address: u8, control: u8, payload: &[u8], out: &mut [u8]) -> usize
    ensures { Crosses (written limit_least address control payload.now (length out.old))
        out.old result out.new }
{
    capi::gorittaem_write(address, control, payload, out)
}

// The same, with the frame limit `limit`.
#[unsafe(no_mangle)]
pub extern "C" fn gorittaem_write_n(
    limit: usize,
    address: u8,
    control: u8,
    payload: &[u8],
    out: &mut [u8],
) -> usize
    ensures { Crosses (written limit address control payload.now (length out.old))
        out.old result out.new }
{
    capi::gorittaem_write_n(limit, address, control, payload, out)
}

// Takes octets of `run` into the receiver whose record `block` holds, up to and with the first flag that hands something out,
// to the start of `out`. The answer is 0 where nothing was handed out; `taken` gets how many, where the call is not refused.
#[unsafe(no_mangle)]
pub extern "C" fn gorittaem_receive(
    block: &mut [u8; BLOCK],
    limit: usize,
    run: &[u8],
    out: &mut [u8],
    taken: &mut usize,
) -> usize
    ensures { Hears (received limit (held_in block.old) run.now (length out.old))
        block.old out.old taken.old result
        block.new out.new taken.new }
{
    capi::gorittaem_receive(block, limit, run, out, taken)
}
