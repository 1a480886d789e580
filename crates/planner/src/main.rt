// The planning program, on document 01's own requests.
#![tactic(auto)]

use std::io;

fn main(rt: HostRuntime) -> io::Result<()> {
    planning::run(&mut rt.stdin(), &mut rt.stdout())
}
