// The known answers of instance 3, ISAP-K-128a.
#![tactic(auto)]

use std::io;

fn main(rt: HostRuntime) -> io::Result<()> {
    known::run(&mut rt.stdin(), &mut rt.stdout(), 3)
}
