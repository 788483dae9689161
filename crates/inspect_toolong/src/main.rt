// The same program on an input of 65,537 bytes. A crate is run on one input, so each input has
// a crate of its own.
#![tactic(auto)]

use std::io;

fn main(rt: HostRuntime) -> io::Result<()> {
    listing::run(&rt)
}
