//! Tests of the whole program but its `main`: each row of the table that is read is called over ports in memory, and
//! what comes of it is compared with what the row says. Two calls that no word makes count as two further rows.
#![tactic(auto)]

mod beside;
mod calls;
mod row;
mod table;

use row::Row;
use std::io;

fn main(rt: HostRuntime) -> io::Result<()> {
    let mut row = Row::new(rt.alloc());
    for line in rt.lines(rt.alloc()) {
        row.read(&rt, line?.as_bytes())?;
    }
    let tally = row
        .tally()
        .and(beside::is_judged(&rt))
        .and(beside::is_summed(&rt));
    println!(rt;
        "rows {}, otherwise {}, the first of those {}",
        tally.rows, tally.wrong, tally.first
    )
}
