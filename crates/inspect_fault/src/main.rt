// The same program on a file whose third entry has an hour out of its range. A crate is run on one
// input, so each input has a crate of its own.
#![tactic(auto)]

use std::io;

fn main(rt: HostRuntime) -> io::Result<()> {
    listing::run(&rt)
}
