// The words that the program is started with. Assumes nothing of the caller.
ghost use Rattle.std.specs.Prelude.{◌≡◌, ◌++◌, IfOk, string_bytes, codes};
ghost use Rattle.salvager.specs.Words.{number_in};

use std::alloc::{AllocError, Global};

// The most octets of GOOD's name, with room behind it for what stands beside.
const MOST: usize = 4032;

// A number of which no more is asked than that it is past every frame limit.
const PAST: usize = 1000;

// Whether a word can be GOOD's name.
pub fn is_name(good: &str) -> bool {
    !good.is_empty() && good.len() <= MOST
}

// The name under which GOOD is written.
pub fn beside(alloc: Global, good: &str) -> Result<String, AllocError>
    ensures { IfOk result (λ s. string_bytes s ≡ good.now ++ codes ".part") }
{
    format!(in alloc; "{good}.part")
}

// The number that digits stand for, as far as it is asked.
fn number(s: &[u8]) -> Option<usize>
    ensures { result ≡ number_in s.now }
{
    let mut n = 0;
    for b in s {
        if !b.is_ascii_digit() {
            return None;
        }
        n = (n * 10 + usize::from(*b - b'0')).min(PAST);
    }
    Some(n)
}

// The third word as a frame limit, if it is one; `given` where there is no third word.
pub fn limit(word: Option<&String>, given: usize) -> Option<usize> {
    match word {
        Some(word) => number(word.as_bytes()).filter(|n| limits::is_limit(*n)),
        None => Some(given),
    }
}
