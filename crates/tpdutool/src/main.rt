// Answers the requests on standard input (docs/REQUESTS.md).
#![tactic(auto)]

use std::io;

fn main(rt: HostRuntime) -> io::Result<()> {
    requests::run(&rt)
}
