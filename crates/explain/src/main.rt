// Reads a bundle from standard input and tells the verdict on it in words, for the railway that delivered it.
#![tactic(auto)]

use layout::Table;
use names::{field_names, words};
use std::io;

mod hints;
mod places;
mod refusals;

// The most bytes that a bundle may have.
const LIMIT: usize = 1048576;

fn tell_count(rt: &impl Print, bundle: &[u8], records: usize, table: Table) -> io::Result<()> {
    rt.print(field_names::table_name(Some(table)))?;
    let count = places::count_of(bundle, records, table);
    println!(rt; ": {count}")
}

fn tell_accepted(rt: &impl Print, bundle: &[u8], records: usize) -> io::Result<()> {
    if records == 0 {
        return rt.print("The bundle is empty: it has no record.\n");
    }
    rt.print("The bundle is accepted: every record keeps the rules. ")?;
    rt.print("Its records by table:\n")?;
    tell_count(rt, bundle, records, Table::Co)?;
    tell_count(rt, bundle, records, Table::Re)?;
    tell_count(rt, bundle, records, Table::Ar)?;
    tell_count(rt, bundle, records, Table::Me)
}

fn explain(rt: &impl Print, bundle: &[u8]) -> io::Result<()> {
    let verdict = offers::verdict(bundle);
    words::say_verdict(rt, verdict)?;
    match verdict {
        Ok(records) => tell_accepted(rt, bundle, records),
        Err(why) => refusals::tell(rt, bundle, why),
    }
}

// The buffer has room for a byte more than a bundle may have, so that a longer one shows. A read that fails ends the input.
fn main(rt: HostRuntime) -> io::Result<()> {
    let mut buffer = vec![in rt.alloc(); 0u8; LIMIT + 1]?;
    let (n, _) = input::read_full(&mut rt.stdin(), &mut buffer);
    explain(&rt, &buffer[..n])
}
