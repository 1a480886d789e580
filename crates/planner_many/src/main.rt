// The planning program on 10,000 requests in one input.
#![tactic(auto)]

use std::io;

fn main(rt: HostRuntime) -> io::Result<()> {
    planning::run(&mut rt.stdin(), &mut rt.stdout())
}
