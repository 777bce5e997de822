// The reader of a parameter field: it holds the frame's slice and a cursor, and finds one parameter after the other.
// Headline: a step finds the triple that stands at the cursor and goes behind it; an end, and less than a triple, stay
// (specs/Read.antt, proofs/Steps.antt). Assumes nothing of its caller.
#![tactic(auto)]

ghost use Rattle.std.specs.Prelude.{◌≡◌};
ghost use Rattle.reader.specs.Read.{stands_at, step_at, reader_of, next_in, reader_after};

// What a field holds that is no triples: less than a whole one stands at a place.
#[derive(Clone, Copy, Debug, PartialEq, Eq)]
pub struct Malformed;

// A triple: its identifier; its value is `len` octets, at `from`.
#[derive(Clone, Copy)]
pub struct Triple {
    pub id: u8,
    pub from: usize,
    pub len: usize,
}

// The triple that stands at a place, and none at the end of a field.
fn stands_at(s: &[u8], at: usize) -> Result<Option<Triple>, Malformed>
    ensures { result ≡ stands_at s.now at }
{
    if s.len() <= at {
        return Ok(None);
    }
    let left = s.len() - at;
    if left < 2 {
        return Err(Malformed);
    }
    let len = octets::wide(s[at + 1]);
    if left - 2 < len {
        return Err(Malformed);
    }
    Ok(Some(Triple {
        id: s[at],
        from: at + 2,
        len,
    }))
}

// What a step of the reader finds, and the cursor after it: `next_at` promises both.
#[derive(Clone, Copy)]
pub struct Step {
    pub found: Result<Option<Triple>, Malformed>,
    pub cursor: usize,
}

// The next parameter of a frame from a place on, and the place behind it. The end, and less than a triple, stay.
pub fn next_at(frame: &[u8], at: usize) -> Step
    ensures { result ≡ step_at frame.now at }
{
    let found = stands_at(frame, at);
    let cursor = match found {
        Ok(Some(triple)) => triple.from + triple.len,
        Ok(None) => at,
        Err(_) => at,
    };
    Step { found, cursor }
}

// The frame in which the parameters lie, and the cursor: where the next one stands.
#[derive(Clone, Copy)]
pub struct Reader<'a> {
    pub frame: &'a [u8],
    pub cursor: usize,
}

impl<'a> Reader<'a> {
    // A reader of a frame, its cursor at a place.
    pub fn new(frame: &'a [u8], cursor: usize) -> Reader<'a>
        ensures { result ≡ reader_of frame.entry cursor }
    {
        Reader { frame, cursor }
    }

    // The next parameter; the cursor moves on behind it.
    pub fn next<'s>(&'s mut self) -> Result<Option<Triple>, Malformed>
        ensures { (result ≡ next_in self.old) × (self.new ≡ reader_after self.old) }
    {
        let step = next_at(self.frame, self.cursor);
        self.cursor = step.cursor;
        step.found
    }
}
