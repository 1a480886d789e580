// The known answers of instance 2, ISAP-A-128.
#![tactic(auto)]

use std::io;

fn main(rt: HostRuntime) -> io::Result<()> {
    known::run(&mut rt.stdin(), &mut rt.stdout(), 2)
}
