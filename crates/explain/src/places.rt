// Where the records of a bundle stand.
use bundle::walk::table_at;
use layout::Table;
use names::words::sum;

// How long a record is whose mark stands at a place, 0 where no mark does.
pub fn length_at(bundle: &[u8], at: usize) -> usize {
    match table_at(bundle, at) {
        Some(table) => layout::length_of(table),
        None => 0,
    }
}

// The bytes behind the mark at a place that belong to its record: fewer than it needs, where the bundle ends before.
pub fn body_at(bundle: &[u8], at: usize) -> &[u8] {
    common::part(bundle, sum(at, 2), length_at(bundle, at))
}

fn next_place(bundle: &[u8], at: usize) -> usize {
    sum(sum(at, 2), length_at(bundle, at))
}

// The byte, from 0, at which a record starts.
pub fn place_of(bundle: &[u8], record: usize) -> usize {
    let mut at = 0;
    for _ in 0..record {
        at = next_place(bundle, at);
    }
    at
}

// How many of the first records are of a table.
pub fn count_of(bundle: &[u8], records: usize, table: Table) -> usize {
    let mut count = 0;
    let mut at = 0;
    for _passed in 0..records {
        if table_at(bundle, at) == Some(table) {
            count += 1;
        }
        at = next_place(bundle, at);
    }
    count
}
