// The program tpdutool again, with the argument `alphabet`: it prints what the program alphabet does.
#![tactic(auto)]

use std::io;

fn main(rt: HostRuntime) -> io::Result<()> {
    requests::run(&rt)
}
