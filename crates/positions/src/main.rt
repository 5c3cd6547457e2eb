// Prints positions of a card's pixels, from standard input to standard output.
#![tactic(auto)]

use std::io;

fn main(rt: HostRuntime) -> io::Result<()> {
    // one byte more than is taken
    let mut bytes = [0u8; 65537];
    let n = input::fill(&mut rt.stdin(), &mut bytes)?;
    printing::print(&bytes[..n], &mut io::writer(&rt))
}
