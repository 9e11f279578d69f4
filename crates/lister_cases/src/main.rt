// Lists the images 00.img to 58.img of its folder, one after another.
#![tactic(auto)]

use std::rt::Files;
use std::{fs, io};

fn list_file(rt: &(impl Files + Print + Eprint + AllocGlobal), path: &str) -> io::Result<()> {
    match fs::open(rt, path) {
        Ok(file) => lister_text::print(rt.alloc(), file, &mut io::writer(rt)),
        Err(e) => eprintln!(rt; "{path}: {e}"),
    }
}

fn main(rt: HostRuntime) -> io::Result<()> {
    for i in 0..59u8 {
        let path = format!(in rt.alloc(); "{i:02}.img")?;
        list_file(&rt, path.as_str())?;
    }
    Ok(())
}
