// The words of the bench's answers, one for each case of what the libraries answer. Assumes nothing of its caller.
// Headline: the word is the script's, and `complete` is said of a scan that is complete and of no other
// (proofs/Said.antt).
#![tactic(auto)]

ghost use Rattle.std.specs.Prelude.{◌≡◌};
ghost use Rattle.terms.specs.Terms.{fault_word, outcome_word, said_word, reply_word, given_word};
ghost use Rattle.terms.specs.Terms.{handed_word, heard_word, end_word, link_word, pending_word, drive_word, word_of};
ghost use Rattle.terms.specs.Terms.{behind_of};

use antenna::Motion;
use drives::Response;
use receiver::Received;
use record::{Link, Pending};
use refusal::Refusal;
use scan::State;
use script::Fault;

// What a word is for: a line's fault; an answer of the row of devices; an outcome; what a command handed out, by its place
// among the names; what a call of the receiver told; where a scan stands; LINK, PENDING and DRIVE of `show`; a scan by hand
// that is made anew; a receiver that is; how many octets it took.
#[derive(Clone, Copy)]
pub enum Term {
    Fault(Fault),
    Reply(Response),
    Outcome(Result<(), Refusal>),
    Handed {
        command: usize,
        handed: Result<usize, Refusal>,
    },
    Heard(Result<Received, Refusal>),
    End(State),
    Link(Link),
    Pending(Pending),
    Drive(Motion),
    Begun,
    Listening,
    Took,
}

// ---- the words

const REFUSED: &str = "refused";

const DONE: &str = "done";

const SILENCE: &str = "silence";

const ANSWER: &str = "answer";

const DEVICE: &str = "device";

const STATE: &str = "state";

const PROBE: &str = "probe";

const FRAME: &str = "frame";

const LINE: &str = "line";

const BEGUN: &str = "begun";

// Of the receiver.
const LISTENING: &str = "listening";

const TOOK: &str = "took";

const NOTHING: &str = "nothing";

// Faults.
const ERROR_LONG: &str = "error long";

const ERROR_COMMAND: &str = "error command";

const ERROR_WORDS: &str = "error words";

const ERROR_HEX: &str = "error hex";

const ERROR_NUMBER: &str = "error number";

const ERROR_ROOM: &str = "error room";

const ERROR_DEVICE: &str = "error device";

const ERROR_FULL: &str = "error full";

// Where a scan stands; the fourth is the word for a frame limit, too.
const GOING: &str = "going";

const COMPLETE: &str = "complete";

const DOUBTFUL: &str = "doubtful";

const LIMIT: &str = "limit";

const FULL: &str = "full";

// Of `show`.
const NONE: &str = "none";

const ASSIGNED: &str = "assigned";

const CONNECTED: &str = "connected";

const DASH: &str = "-";

const BARE: &str = "";

const INDICATION: &str = "i";

const STILL: &str = "still";

const MOVING: &str = "moving";

const STOPPED_OK: &str = "stopped:ok";

const STOPPED_JAM: &str = "stopped:jam";

// ---- which word

#[tactic(auto, unfolding(crate::specs::Terms::fault_word, script::specs::Words::spelled))]
fn fault_word(fault: Fault) -> &'static str
    ensures { result.now ≡ fault_word fault }
{
    match fault {
        Fault::Long => ERROR_LONG,
        Fault::Command => ERROR_COMMAND,
        Fault::Words => ERROR_WORDS,
        Fault::Hex => ERROR_HEX,
        Fault::Number => ERROR_NUMBER,
        Fault::Room => ERROR_ROOM,
        Fault::Device => ERROR_DEVICE,
    }
}

#[tactic(auto, unfolding(crate::specs::Terms::outcome_word, script::specs::Words::spelled))]
fn outcome_word(outcome: Result<(), Refusal>) -> &'static str
    ensures { result.now ≡ outcome_word outcome }
{
    match outcome {
        Ok(()) => DONE,
        Err(_) => REFUSED,
    }
}

#[tactic(auto, unfolding(crate::specs::Terms::said_word, script::specs::Words::spelled))]
fn said_word(said: Result<Option<usize>, Refusal>) -> &'static str
    ensures { result.now ≡ said_word said }
{
    match said {
        Ok(None) => SILENCE,
        Ok(Some(_)) => ANSWER,
        Err(_) => REFUSED,
    }
}

#[tactic(auto, unfolding(crate::specs::Terms::reply_word, script::specs::Words::spelled))]
fn reply_word(answer: Response) -> &'static str
    ensures { result.now ≡ reply_word answer }
{
    match answer {
        Response::NoCommand => ERROR_COMMAND,
        Response::NoDevice => ERROR_DEVICE,
        Response::Full => ERROR_FULL,
        Response::Device(_) => DEVICE,
        Response::Outcome(outcome) => outcome_word(outcome),
        Response::Said(said) => said_word(said),
        Response::State(_) => STATE,
        Response::Limit(_) => LIMIT,
    }
}

// `probe`, `decode` and `decode-n`, else `write` and `write-n`.
#[tactic(auto, unfolding(crate::specs::Terms::given_word, script::specs::Words::spelled))]
fn given_word(command: usize) -> &'static str
    ensures { result.now ≡ given_word command }
{
    match command {
        script::PROBE => PROBE,
        script::DECODE | script::DECODE_N => FRAME,
        _ => LINE,
    }
}

#[tactic(auto, unfolding(crate::specs::Terms::handed_word, script::specs::Words::spelled))]
fn handed_word(command: usize, handed: Result<usize, Refusal>) -> &'static str
    ensures { result.now ≡ handed_word command handed }
{
    match handed {
        Ok(_) => given_word(command),
        Err(_) => REFUSED,
    }
}

// A closing flag hands out what the decoder says.
#[tactic(auto, unfolding(crate::specs::Terms::heard_word, crate::specs::Terms::told_word, script::specs::Words::spelled))]
fn heard_word(heard: Result<Received, Refusal>) -> &'static str
    ensures { result.now ≡ heard_word heard }
{
    match heard {
        Ok(received) => match received.handed {
            None => NOTHING,
            Some(handed) => handed_word(script::DECODE, handed),
        },
        Err(_) => REFUSED,
    }
}

#[tactic(auto, unfolding(crate::specs::Terms::end_word, script::specs::Words::spelled))]
fn end_word(state: State) -> &'static str
    ensures { result.now ≡ end_word state }
{
    match state {
        State::Asking { quiet: _, doubt: _ } => GOING,
        State::Complete => COMPLETE,
        State::Doubtful => DOUBTFUL,
        State::Limit => LIMIT,
        State::Full => FULL,
    }
}

#[tactic(auto, unfolding(crate::specs::Terms::link_word, script::specs::Words::spelled))]
fn link_word(link: Link) -> &'static str
    ensures { result.now ≡ link_word link }
{
    match link {
        Link::NoAddress => NONE,
        Link::AddressAssigned => ASSIGNED,
        Link::Connected(_) => CONNECTED,
    }
}

#[tactic(auto, unfolding(crate::specs::Terms::pending_word, script::specs::Words::spelled))]
fn pending_word(pending: Pending) -> &'static str
    ensures { result.now ≡ pending_word pending }
{
    match pending {
        Pending::Nothing => DASH,
        Pending::Answer => BARE,
        Pending::Indication => INDICATION,
    }
}

#[tactic(auto, unfolding(crate::specs::Terms::drive_word, script::specs::Words::spelled))]
fn drive_word(motion: Motion) -> &'static str
    ensures { result.now ≡ drive_word motion }
{
    match motion {
        Motion::Still => STILL,
        Motion::Moving => MOVING,
        Motion::Owing { asked: _ } => MOVING,
        Motion::Stopped { reached: true } => STOPPED_OK,
        Motion::Stopped { reached: false } => STOPPED_JAM,
    }
}

#[tactic(auto, unfolding(crate::specs::Terms::word_of, script::specs::Words::spelled))]
pub fn word(term: Term) -> &'static str
    ensures { result.now ≡ word_of term }
{
    match term {
        Term::Fault(fault) => fault_word(fault),
        Term::Reply(answer) => reply_word(answer),
        Term::Outcome(outcome) => outcome_word(outcome),
        Term::Handed { command, handed } => handed_word(command, handed),
        Term::Heard(heard) => heard_word(heard),
        Term::End(state) => end_word(state),
        Term::Link(link) => link_word(link),
        Term::Pending(pending) => pending_word(pending),
        Term::Drive(motion) => drive_word(motion),
        Term::Begun => BEGUN,
        Term::Listening => LISTENING,
        Term::Took => TOOK,
    }
}

// How many words stand behind a scan's count: none, the list, or the list and what is named.
pub fn behind(state: State) -> usize
    ensures { result ≡ behind_of state }
{
    match state {
        State::Asking { quiet: _, doubt: _ } => 0,
        State::Complete => 1,
        State::Doubtful => 1,
        State::Limit => 2,
        State::Full => 2,
    }
}
