// The tilt device on its line: a decoded frame judged, octets from between two flags heard.
// Headline: which number is given, exactly when; a refusal leaves the device and the buffer as they were, silence the
// buffer (proofs/Exact.antt). Assumes nothing of its caller: a record that no run ever made may be handed in.
#![tactic(auto)]

ghost use Rattle.std.specs.Prelude.{Ok, ◌≤◌, length};
ghost use Rattle.refusal.specs.Answer.{gives};
ghost use Rattle.speech.specs.Speech.{spoken_most};
ghost use Rattle.device.specs.Judge.{Judges, reacts, judged, heard};

use limits::LONGEST_FRAME;
use record::Device;
use refusal::Refusal;
use station::Say;

// What is said goes to the start of the answer buffer: how many octets, or none where nothing is said.
fn utter(device: Device, say: Say, answer: &mut [u8]) -> Option<usize>
    requires { spoken_most ≤ length answer.old }
    ensures { Judges (gives (reacts device say)) device answer.old (Ok result) device answer.new }
{
    let spoken = speech::speak(device, say)?;
    octets::put_all(answer, 0, spoken.octets());
    Some(spoken.len)
}

// A decoded frame, judged: the device after it, and its answer at the start of the buffer: how many octets, or none for
// silence. A number for "no" leaves the device and the buffer as they were.
pub fn judge(device: &mut Device, frame: &[u8], answer: &mut [u8]) -> Result<Option<usize>, Refusal>
    ensures { Judges (judged device.old frame.now (length answer.old)) device.old answer.old
        result device.new answer.new }
{
    if !record::allowed(*device) {
        return Err(Refusal::NotAllowed);
    }
    if answer.len() < limits::frame_most(device.station.desk.limit) {
        return Err(Refusal::NoRoom);
    }
    let turn = link::judge_frame(*device, frame);
    *device = turn.device;
    Ok(utter(turn.device, turn.say, answer))
}

// What lies between two flags, heard: decoded with the link's frame limit into a buffer of its own, then judged.
pub fn hear(device: &mut Device, line: &[u8], answer: &mut [u8]) -> Result<Option<usize>, Refusal>
    ensures { Judges (heard device.old line.now (length answer.old)) device.old answer.old
        result device.new answer.new }
{
    let mut store = [0u8; LONGEST_FRAME];
    let handed = frame::decode(device.station.desk.limit, line, &mut store);
    let Ok(n) = handed else {
        return handed.and(Ok(None));
    };
    judge(device, &store[..n], answer)
}
