// Words, numbers and bytes, written to standard output. Each of these fails only where a write fails.
use common::Refusal;
use std::io;

// The verdict on a bundle as one line: how many records it has, or the first fault.
pub fn say_verdict(rt: &impl Print, verdict: Result<usize, Refusal>) -> io::Result<()> {
    match verdict {
        Ok(records) => println!(rt; "OK {records}"),
        Err(why) => println!(rt; "NO {why}"),
    }
}

pub fn say_number(rt: &impl Print, n: usize) -> io::Result<()> {
    print!(rt; "{n}")
}

// A number as a field of some width has it, with zeros in front.
pub fn say_digits(rt: &impl Print, n: u32, width: usize) -> io::Result<()> {
    print!(rt; "{n:0width$}")
}

// Bytes as they were delivered. What is no printable ASCII, or would be mistaken for a quote or for this way of writing, is shown as \xHH.
pub fn say_bytes(rt: &impl Print, s: &[u8]) -> io::Result<()> {
    for b in s {
        say_byte(rt, *b)?;
    }
    Ok(())
}

pub fn say_quoted(rt: &impl Print, s: &[u8]) -> io::Result<()> {
    rt.print("\"")?;
    say_bytes(rt, s)?;
    rt.print("\"")
}

// The most bytes of a value that are shown.
const SHOWN: usize = 60;

// A value as it was delivered; of a long one the start, and how long it is.
pub fn say_delivered(rt: &impl Print, s: &[u8]) -> io::Result<()> {
    say_quoted(rt, common::part(s, 0, SHOWN))?;
    if SHOWN < s.len() {
        rt.print("... (")?;
        say_length(rt, s.len())?;
        rt.print(")")?;
    }
    Ok(())
}

pub fn say_length(rt: &impl Print, n: usize) -> io::Result<()> {
    say_number(rt, n)?;
    if n == 1 {
        rt.print(" byte")
    } else {
        rt.print(" bytes")
    }
}

fn say_byte(rt: &impl Print, b: u8) -> io::Result<()> {
    if is_plain(b) {
        rt.print(b as char)
    } else {
        print!(rt; "\\x{b:02X}")
    }
}

fn is_plain(b: u8) -> bool {
    matches!(b, 32..=126) && b != b'"' && b != b'\\'
}

const LIMIT: usize = 1048576;

// The sum of two places or lengths. None is ever above the limit; the tests stand in for a proof of that.
pub fn sum(a: usize, b: usize) -> usize {
    if LIMIT < a {
        return a;
    }
    if LIMIT < b {
        return a;
    }
    a + b
}
