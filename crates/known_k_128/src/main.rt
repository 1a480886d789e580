// The known answers of instance 4, ISAP-K-128.
#![tactic(auto)]

use std::io;

fn main(rt: HostRuntime) -> io::Result<()> {
    known::run(&mut rt.stdin(), &mut rt.stdout(), 4)
}
