// The lister: prints what the image on standard input holds, or the refusal's number.
#![tactic(auto)]

use std::io;

fn main(rt: HostRuntime) -> io::Result<()> {
    lister_text::print(rt.alloc(), rt.reader(), &mut io::writer(&rt))
}
