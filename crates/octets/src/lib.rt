// Octets in a lent buffer: stored where they are inside it, and nowhere else. A part of a slice. Two octets as
// a number. Texts: octets of any number up to N.
// Assumes nothing of its caller.
#![tactic(auto)]

ghost use Rattle.std.specs.Prelude.{◌≡◌, ◌≤◌, min, set, take, length};
ghost use Rattle.std.proofs.lemmas.List.Edits.{sets};
ghost use Rattle.octets.specs.Octets.{pair_of, part_of, place_of};
ghost use Rattle.octets.specs.Text.{content, laid};

// Stores `octet` at `at`, if that is inside.
pub fn put(out: &mut [u8], at: usize, octet: u8)
    ensures { out.new ≡ set out.old at octet }
{
    // By an index: the contract of the library's method says nothing of what the buffer holds once the borrow is over.
    if at < out.len() {
        out[at] = octet;
    }
}

// The smaller of two numbers.
pub fn fewer(a: usize, b: usize) -> usize
    ensures { result ≡ min a b }
{
    a.min(b)
}

// Stores the octets of `s` from `at` on, as far as they are inside.
pub fn put_all(out: &mut [u8], at: usize, s: &[u8])
    ensures { out.new ≡ sets out.old at s.now }
{
    let count = s.len().min(out.len().saturating_sub(at));
    // By an index: copied as one run, the archive for C would ask for memmove, which a small board's C library may not have.
    for i in 0..count {
        out[at + i] = s[i];
    }
}

// The place of the first `octet` in `s`; its length where there is none.
// A number and no Option: it is promised for every slice, as the place to cut at (`place_of`).
pub fn find(octet: u8, s: &[u8]) -> usize
    ensures { result ≡ place_of octet s.now }
{
    s.iter().position(|&x| x == octet).unwrap_or(s.len())
}

// An octet as a length.
pub fn wide(octet: u8) -> usize
    ensures { result ≡ octet }
{
    usize::from(octet)
}

// The number that two octets stand for, the low one first.
pub fn pair(low: u8, high: u8) -> u16
    ensures { result ≡ pair_of low high }
{
    u16::from_le_bytes([low, high])
}

// The octets from one place up to another, as far as there are any.
pub fn part(s: &[u8], from: usize, end: usize) -> &[u8]
    ensures { result.now ≡ part_of from end s.now }
{
    let last = end.min(s.len());
    let first = from.min(last);
    &s[first..last]
}

// Octets of any number up to N: the first `len` of a row of N; all of it where `len` says more.
#[derive(Clone, Copy)]
pub struct Text<const N: usize> {
    pub octets: [u8; N],
    pub len: usize,
}

impl<const N: usize> Text<N> {
    // The octets of `s`, zeros behind them; of more than N, the first N.
    pub fn of(s: &[u8]) -> Text<N>
        ensures { result ≡ laid N (take N s.now) }
    {
        let len = fewer(s.len(), N);
        let mut octets = [0u8; N];
        put_all(&mut octets, 0, &s[..len]);
        Text { octets, len }
    }

    // The octets that count.
    pub fn octets(&self) -> &[u8]
        ensures all { result.now ≡ content self.now }
        ensures few { length result.now ≤ N }
    {
        let len = fewer(self.len, N);
        &self.octets[..len]
    }
}
