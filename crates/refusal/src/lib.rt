// The numbers for "no", and what a function answers that hands octets out into a lent output.
// Assumes nothing of its caller.
#![tactic(auto)]

ghost use Rattle.std.specs.Prelude.{◌≡◌, length};
ghost use Rattle.refusal.specs.Numbers.{number_of};
ghost use Rattle.refusal.specs.Answer.{Hands, handed_out};

// One case for each row of the table of numbers, in its order.
#[derive(Clone, Copy)]
pub enum Refusal {
    TooShort,
    TooLong,
    WrongCheck,
    Broken,
    NoRoom,
    NotAllowed,
    ScanOver,
    CannotBe,
    PayloadTooLong,
}

// The paper's number of a refusal.
impl From<Refusal> for u8 {
    ghost from_gives = { λ refusal n. n ≡ number_of refusal };

    fn from(refusal: Refusal) -> u8 {
        match refusal {
            Refusal::TooShort => 1,
            Refusal::TooLong => 2,
            Refusal::WrongCheck => 3,
            Refusal::Broken => 4,
            Refusal::NoRoom => 5,
            Refusal::NotAllowed => 6,
            Refusal::ScanOver => 7,
            Refusal::CannotBe => 8,
            Refusal::PayloadTooLong => 9,
        }
    }
}

pub fn number(refusal: Refusal) -> u8
    ensures { result ≡ number_of refusal }
{
    u8::from(refusal)
}

// Hands `octets` out: to the start of `out`, if it has room for them all. So many stand there then; or the number for "no", and the
// output is as it was.
pub fn hand_out(octets: &[u8], out: &mut [u8]) -> Result<usize, Refusal>
    ensures { Hands (handed_out octets.now (length out.old))
        out.old result out.new }
{
    if out.len() < octets.len() {
        return Err(Refusal::NoRoom);
    }
    octets::put_all(out, 0, octets);
    Ok(octets.len())
}
