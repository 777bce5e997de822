// Standard input, cut into lines. Assumes nothing of the caller: an input that holds no such octets has an empty line.
ghost use Rattle.std.specs.Prelude.{◌≡◌, ◌%◌, take, IfOk};
ghost use Rattle.script.specs.Script.{read_line};
ghost use Rattle.bench.specs.Input.{unread, line_taken, refilled, Arrives, without_return};

use crate::rows;
use script::{Asked, Fault};
use std::io;
use std::io::{Read, Stdin};

// Octets kept of a line: one more than the longest has and a 0x0D, so that a longer one is too long whatever follows.
const KEPT: usize = script::LONGEST + 2;

// Octets read at a time.
const RUN: usize = 4096;

// Rows of a fixed size: a line can be longer than any memory. The octets of the run from `from` to `end` are still to be
// read; `len` octets of a line have come. A whole line had a 0x0A, and the last one, at the end of the input, has none.
#[derive(Clone, Copy)]
pub struct Input {
    pub whole: bool,
    run: [u8; RUN],
    from: usize,
    end: usize,
    line: [u8; KEPT],
    len: usize,
}

#[tactic(auto, unfolding(crate::specs::Input::unread))]
pub fn unread() -> Input
    ensures { result ≡ unread }
{
    Input {
        whole: false,
        run: [0u8; RUN],
        from: 0,
        end: 0,
        line: [0u8; KEPT],
        len: 0,
    }
}

// What the run has of a line goes behind what has come.
fn take(input: Input) -> Input
    ensures { result ≡ line_taken input }
{
    let run = input.run;
    let mut line = input.line;
    let rest = octets::part(&run, input.from, input.end);
    let n = octets::find(b'\n', rest);
    octets::put_all(&mut line, input.len, octets::part(rest, 0, n));
    Input {
        whole: n < rest.len(),
        run,
        from: rows::moved(rows::moved(input.from, n, RUN), 1, RUN),
        end: input.end,
        line,
        len: rows::moved(input.len, n, KEPT),
    }
}

// The next run; none at the end of the input.
#[tactic(auto, unfolding(crate::specs::Input::refilled))]
fn refill(from: Stdin, input: Input) -> io::Result<Input>
    ensures { IfOk result (λ next. next ≡ refilled input next.run next.end) }
{
    let mut from = from;
    let mut next = input;
    let mut run = [0u8; RUN];
    next.end = from.read(&mut run)?;
    next.run = run;
    next.from = 0;
    Ok(next)
}

// A proved loop has to end, and nothing says that a line does.
pub fn next_line(from: Stdin, input: Input) -> io::Result<Input>
    ensures { IfOk result (λ next. Arrives input next) }
{
    let mut next = input;
    next.len = 0;
    for _ in 0..u64::MAX {
        next = take(next);
        if next.whole {
            return Ok(next);
        }
        next = refill(from, next)?;
        if next.end == 0 {
            return Ok(next);
        }
    }
    Ok(next)
}

// A line without the 0x0D before its end.
fn without_return(line: &[u8], whole: bool) -> &[u8]
    ensures { result.now ≡ without_return whole line.now }
{
    if whole {
        return line.strip_suffix(b"\r").unwrap_or(line);
    }
    line
}

// What the line asks of a bench with so many devices.
pub fn asked_of(input: Input, devices: usize) -> Result<Option<Asked>, Fault>
    ensures { result ≡ read_line (without_return input.whole (take input.len input.line)) (devices % 256) }
{
    let line = octets::part(&input.line, 0, input.len);
    script::read_line(without_return(line, input.whole), (devices % 256) as u8)
}
