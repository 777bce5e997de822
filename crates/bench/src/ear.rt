// `listen` and `octets`: the bench's one receiver of the live line. Assumes nothing of the caller.
ghost use Rattle.std.specs.Prelude.{◌≡◌, IfOk};
ghost use Rattle.receiver.specs.Call.{held_by};
ghost use Rattle.bench.specs.Bench.{value_in, ear_of, fresh_ear, ear_call, ear_after};
ghost use Rattle.bench.specs.Said.{Calls};

use crate::answers;
use crate::answers::{FILL, ROOM};
use receiver::{PLACES, Received, Receiver};
use refusal::Refusal;
use script::Asked;
use std::io::{self, Stdout};
use terms::Term;

// The receiver's record, and the store that a call lends it.
#[derive(Clone, Copy)]
pub struct Ear {
    receiver: Receiver,
    store: [u8; PLACES],
}

// Before any octet.
pub fn fresh() -> Ear
    ensures { ear_of result ≡ fresh_ear }
{
    Ear {
        receiver: receiver::new(),
        store: [0u8; PLACES],
    }
}

// How many octets were taken stands in front of what was handed out.
fn say_taken(out: Stdout, taken: usize) -> io::Result<()> {
    answers::say(out, Term::Took)?;
    answers::say_number(out, b' ', taken)?;
    answers::say_octets(out, b" ")
}

// What a call told; one that is refused took nothing.
fn say_heard(out: Stdout, heard: Result<Received, Refusal>) -> io::Result<()> {
    match heard {
        Ok(received) => {
            say_taken(out, received.taken)?;
            answers::say(out, Term::Heard(heard))?;
            match received.handed {
                None => Ok(()),
                Some(handed) => answers::say_handed(out, handed),
            }
        }
        Err(refusal) => {
            answers::say(out, Term::Heard(heard))?;
            answers::say_refusal(out, refusal)
        }
    }
}

// What a call told, and the receiver and the lent output after it.
#[derive(Clone, Copy)]
struct Called {
    ear: Ear,
    heard: Result<Received, Refusal>,
    lent: [u8; ROOM],
}

// One call; octets that it did not take are forgotten.
fn call(ear: Ear, asked: Asked) -> Called
    ensures ear { ear_of result.ear ≡ held_by (ear_call (ear_of ear) asked) (ear_of ear) }
    ensures said { Calls (ear_call (ear_of ear) asked) (value_in asked 3) result }
{
    let mut receiver = ear.receiver;
    let mut store = ear.store;
    let values = asked.values;
    let mut lent = [FILL; ROOM];
    let run = octets::part(&asked.octets, 0, asked.len as usize);
    let room = values[3].min(ROOM);
    let heard = receiver::receive(&mut receiver, values[1], run, &mut store, &mut lent[..room]);
    Called {
        ear: Ear { receiver, store },
        heard,
        lent,
    }
}

// Any other command leaves the receiver alone.
#[tactic(auto, unfolding(crate::specs::Bench::ear_after))]
pub fn hear(out: Stdout, ear: Ear, asked: Asked) -> io::Result<Ear>
    ensures { IfOk result (λ after. ear_of after ≡ ear_after asked.command (ear_of ear) asked) }
{
    if asked.command == script::LISTEN {
        answers::say(out, Term::Listening)?;
        return Ok(fresh());
    }
    if asked.command == script::OCTETS {
        let values = asked.values;
        let called = call(ear, asked);
        say_heard(out, called.heard)?;
        answers::say_buffer(out, called.lent, values[3])?;
        return Ok(called.ear);
    }
    Ok(ear)
}
