// The planning program on an empty input.
#![tactic(auto)]

use std::io;

fn main(rt: HostRuntime) -> io::Result<()> {
    planning::run(&mut rt.stdin(), &mut rt.stdout())
}
