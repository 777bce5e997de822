// Places in rows of octets. Total, so nothing is assumed of the caller.
ghost use Rattle.std.specs.Prelude.{◌≡◌, ◌+◌, ◌%◌, min, take};

// The octet of a number, its last 8 bits.
pub fn octet(value: usize) -> u8
    ensures { result ≡ value % 256 }
{
    (value % 256) as u8
}

// The first octets of a row, to be written to; all of it where it is shorter.
pub fn front(s: &mut [u8], n: usize) -> &mut [u8]
    ensures { result.now ≡ take n s.old }
{
    let end = n.min(s.len());
    &mut s[..end]
}

// So far on, but not past the end.
pub fn moved(at: usize, by: usize, end: usize) -> usize
    ensures { result ≡ min (at + by) end }
{
    at.saturating_add(by).min(end)
}
