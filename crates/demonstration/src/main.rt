// The demonstration: rows A to H and L of document 01's table, worked by the functions of these crates, then for each rule a check over many drawn
// cases. The Rust simulator's tests work out every line from document 01 and compare it with the stored output.
#![tactic(auto)]

mod draw;
mod rows;
mod rules;
mod sweep;

use std::io;

fn main(rt: HostRuntime) -> io::Result<()> {
    let stdout = rt.stdout();
    rows::print_rows(stdout)?;
    sweep::print_checks(stdout)
}
