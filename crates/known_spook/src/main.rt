// The second program's answers of instance 5, Spook[128,512,su].
#![tactic(auto)]

use std::io;

fn main(rt: HostRuntime) -> io::Result<()> {
    known::run(&mut rt.stdin(), &mut rt.stdout(), 5)
}
