// Replays the script on standard input: calls, one a line, on one image, one memory and one log, and prints what each answers. A script may also
// overwrite a block of the image or bytes of the log, as a cut store does, and have blocks of the one, bytes of the other and digests printed.
#![tactic(auto)]

use replay_image::Areas;
use replay_log::LogArea;
use replay_memory::{Area, lend};
use replay_script::{Start, say, start_of_text};
use replay_text::bad_line;
use replay_text::log::line_of_text;
use std::alloc::Global;
use std::io::{BufWriter, Read, Write};
use std::{io, str};

// Room for a script; for an image of one block more than a store may have; for a memory of more than the largest store; and for a log.
const SCRIPT_SIZE: u64 = 1048576;

const IMAGE_SIZE: usize = (block_forms::BLOCK_LIMIT + 1) * block_forms::BLOCK_SIZE;

const MEMORY_SIZE: usize = 135168;

const LOG_SIZE: usize = 65536;

// What a script works on: image and memory, a second memory for a roll-forward, and a log.
#[derive(Drop)]
struct Workspace {
    areas: Areas,
    second: Vec<u8>,
    log: LogArea,
}

impl Workspace {
    // Zeros, nothing of them lent.
    fn new(alloc: Global) -> io::Result<Workspace> {
        Ok(Workspace {
            areas: Areas {
                image: Area::new(vec![in alloc; 0; IMAGE_SIZE]?),
                memory: Area::new(vec![in alloc; 0; MEMORY_SIZE]?),
            },
            second: vec![in alloc; 0; MEMORY_SIZE]?,
            log: LogArea::new(vec![in alloc; 0; LOG_SIZE]?),
        })
    }

    fn clear(&mut self, out: &mut impl Write) -> io::Result<()> {
        self.areas.clear();
        self.log.start(0);
        say(out, b"cleared\n")
    }

    fn roll(
        &mut self,
        out: &mut impl Write,
        bytes: usize,
        room: usize,
        second: usize,
    ) -> io::Result<()> {
        let a = self.log.roll(
            out,
            self.areas.image.first(bytes),
            self.areas.memory.first(room),
            lend(&mut self.second, second as u64),
        )?;
        self.areas.lend_after(a, bytes, room);
        Ok(())
    }

    fn start(&mut self, out: &mut impl Write, start: Start) -> io::Result<()> {
        match start {
            Start::Make {
                bytes,
                capacity,
                room,
            } => self.areas.make(out, bytes, capacity, room),
            Start::Recover { bytes, room } => self.areas.recover(out, bytes, room),
            Start::Roll {
                bytes,
                room,
                second,
            } => self.roll(out, bytes, room, second),
            Start::Clear => self.clear(out),
        }
    }

    fn line(&mut self, out: &mut impl Write, line: &str) -> io::Result<()> {
        if let Some(what) = line_of_text(line) {
            return self.log.line(out, what, self.areas.memory.lent());
        }
        match start_of_text(line) {
            Some(start) => self.start(out, start),
            None => self.areas.line(out, line),
        }
    }

    // All lines, the last with or without a newline. One that is no text is as bad as one that is no call.
    fn replay(&mut self, out: &mut impl Write, script: &[u8]) -> io::Result<()> {
        for line in script.split_inclusive(|b| *b == b'\n') {
            match str::from_utf8(line.strip_suffix(b"\n").unwrap_or(line)) {
                Ok(line) => self.line(out, line)?,
                Err(_) => bad_line(out)?,
            }
        }
        Ok(())
    }
}

fn replay_input(alloc: Global, input: impl Read + Drop, out: &mut impl Write) -> io::Result<()> {
    let mut script = Vec::new(alloc);
    input.take(SCRIPT_SIZE).read_to_end(&mut script)?;
    let mut workspace = Workspace::new(alloc)?;
    workspace.replay(out, &script)
}

fn main(rt: HostRuntime) -> io::Result<()> {
    let mut out = BufWriter::new(rt.alloc(), io::writer(&rt))?;
    replay_input(rt.alloc(), rt.reader(), &mut out)?;
    out.flush()
}
