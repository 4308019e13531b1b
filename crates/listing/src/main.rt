// Prints the listing of the file on standard input.
#![tactic(auto)]

use std::io;

fn main(rt: HostRuntime) -> io::Result<()> {
    lister::list(&mut rt.reader(), &mut io::writer(&rt))
}
