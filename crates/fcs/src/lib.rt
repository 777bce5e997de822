// The frame check of ISO/IEC 13239 (also RFC 1662), worked with a table of 256 remainders, or with one of 16.
// Headline: after a frame with its check the register is 0xF0B8, and only then (proofs/Residue.antt).
// Assumes nothing of its caller.
#![tactic(auto)]

mod halves;
mod table;

ghost use Rattle.std.specs.Prelude.{◌≡◌, ◌≤◌, [], ◌∷◌, ◌⊎◌};
ghost use Rattle.fcs.specs.Check.{bit_steps, register_after, check_of, Remainders};

// The register before the first octet.
pub const START: u16 = 0xFFFF;

// Which of the two tables: that of 16 for a board that is short of read-only memory, else that of 256. Both are proved.
const HALVES: bool = false;

// The register `x` as many bits on as the table that the caller lends works at once.
fn bits_on<const BITS: u16>(table: &[u16], x: u16) -> u16
    requires { (BITS ≤ 8) × Remainders BITS table.now }
    ensures { result ≡ bit_steps BITS x }
{
    (x >> BITS) ^ table[usize::from(x % (1 << BITS))]
}

// A table of remainders, that of 16 or that of 256. Which of them the fact leaves out (`∥ .. ∥₁`), since the length tells.
#[derive(Clone, Copy)]
struct RemainderTable<'a> {
    rows: &'a [u16],
    ghost right: { ∥ Remainders 4 rows.now ⊎ Remainders 8 rows.now ∥₁ },
}

impl<'a> RemainderTable<'a> {
    // The register `x` eight bits on: by a table of 16 in two halves, the low one first; by one of 256 at once.
    fn eight_on(self, x: u16) -> u16
        ensures { result ≡ bit_steps 8 x }
    {
        if self.rows.len() == 16 {
            let low = bits_on::<4>(self.rows, x);
            return bits_on::<4>(self.rows, low);
        }
        bits_on::<8>(self.rows, x)
    }

    // The register `r` two octets on: they are one number, of which the second comes down with the register.
    fn two_on(self, r: u16, a: u8, b: u8) -> u16
        ensures { result ≡ register_after r (a ∷ b ∷ []) }
    {
        self.eight_on(self.eight_on(r ^ octets::pair(a, b)))
    }

    // The register after the octets of `s`, from `register` on: two octets a turn, and the last one of an odd number.
    fn run_by_two(self, register: u16, s: &[u8]) -> u16
        ensures { result ≡ register_after register s.now }
    {
        let (pairs, rest) = s.as_chunks::<2>();
        let mut r = register;
        for &[a, b] in pairs {
            r = self.two_on(r, a, b);
        }
        match rest {
            [last, ..] => self.eight_on(r ^ u16::from(*last)),
            [] => r,
        }
    }

    // The same, eight octets a turn, and what is left by two.
    fn run(self, register: u16, s: &[u8]) -> u16
        ensures { result ≡ register_after register s.now }
    {
        let (eights, rest) = s.as_chunks::<8>();
        let mut r = register;
        for &[a, b, c, d, e, f, g, h] in eights {
            let two = self.two_on(r, a, b);
            let four = self.two_on(two, c, d);
            let six = self.two_on(four, e, f);
            r = self.two_on(six, g, h);
        }
        self.run_by_two(r, rest)
    }
}

// The register after the octets of `s`, from `register` on, by the table of 16: two octets a turn, for less code.
// No instance of one function with by_octets: the two differ in their loop, not only in their table.
fn by_halves(register: u16, s: &[u8]) -> u16
    ensures { result ≡ register_after register s.now }
{
    let rows = halves::REMAINDERS;
    RemainderTable { rows: &rows }.run_by_two(register, s)
}

// The same by the table of 256.
fn by_octets(register: u16, s: &[u8]) -> u16
    ensures { result ≡ register_after register s.now }
{
    let rows = table::REMAINDERS;
    RemainderTable { rows: &rows }.run(register, s)
}

// The register after the octets of `s`, from `register` on.
pub fn go_on(register: u16, s: &[u8]) -> u16
    ensures { result ≡ register_after register s.now }
{
    if HALVES {
        return by_halves(register, s);
    }
    by_octets(register, s)
}

// The check of the octets of `s`: the register after them, complemented.
pub fn check(s: &[u8]) -> u16
    ensures { result ≡ check_of s.now }
{
    go_on(START, s) ^ 0xFFFF
}
