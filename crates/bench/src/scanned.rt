// What a scan comes to, in one line. Assumes nothing of the caller.
use crate::answers;
use scan::Scan;
use std::io::{Result, Stdout};
use terms::Term;

// The identities, each behind a comma but for the first; a `-` where there is none.
fn say_list(out: Stdout, list: [u8; scan::LIST], listed: usize) -> Result<()> {
    if listed == 0 {
        return answers::say_hex(out, b' ', octets::part(&list, 0, 0));
    }
    let mut mark = b' ';
    for identity in list.chunks(identity::OCTETS).take(listed) {
        answers::say_hex(out, mark, identity)?;
        mark = b',';
    }
    Ok(())
}

pub fn say_scan(out: Stdout, scan: Scan) -> Result<()> {
    let state = scan.state;
    let list = scan.list;
    let beginning = scan.beginning;
    let words = terms::behind(state);
    answers::say(out, Term::End(state))?;
    answers::say_number(out, b' ', scan.count as usize)?;
    if words == 0 {
        return Ok(());
    }
    say_list(out, list, scan.listed)?;
    if words == 2 {
        answers::say_number(out, b' ', scan.bits)?;
        answers::say_hex(out, b':', &identity::octets_of(beginning, scan.bits))?;
    }
    Ok(())
}
