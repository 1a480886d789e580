// The planning program on the ten cases to check, every refusal, and a request that is cut short.
#![tactic(auto)]

use std::io;

fn main(rt: HostRuntime) -> io::Result<()> {
    planning::run(&mut rt.stdin(), &mut rt.stdout())
}
