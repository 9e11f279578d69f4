// The calls of a replayed script that are lent the image, and what it does with blocks: done, and what is answered printed. All other lines go on
// to the calls on the memory.
#![tactic(auto)]

use call_contracts::Answer;
use replay_memory::{Area, on_memory, say_answer};
use replay_script::{Call, Room};
use std::io;
use std::io::Write;

// The image and the memory of a script. A call is lent as much of both as the last accepted make, recovery or roll-forward.
#[derive(Drop)]
pub struct Areas {
    pub image: Area,
    pub memory: Area,
}

impl Areas {
    pub fn make(
        &mut self,
        out: &mut impl Write,
        bytes: usize,
        capacity: u64,
        room: usize,
    ) -> io::Result<()> {
        let a = store::make(self.image.first(bytes), self.memory.first(room), capacity);
        self.lend_after(a, bytes, room);
        say_answer(out, a)
    }

    pub fn recover(&mut self, out: &mut impl Write, bytes: usize, room: usize) -> io::Result<()> {
        let a = store::recover(self.image.first(bytes), self.memory.first(room));
        self.lend_after(a, bytes, room);
        say_answer(out, a)
    }

    // So many bytes are lent to the calls that follow, if the one that asked for them was accepted.
    pub fn lend_after(&mut self, a: Answer, image: usize, memory: usize) {
        if a.is_ok() {
            self.image.lend(image);
            self.memory.lend(memory);
        }
    }

    // Zeros, nothing of them lent.
    pub fn clear(&mut self) {
        self.image.clear(0);
        self.memory.clear(0);
    }

    fn call(&mut self, out: &mut impl Write, call: Call<'_>) -> io::Result<()> {
        let Areas { image, memory } = self;
        match call {
            Call::Step(asked) => say_answer(out, store::step(image.part(asked), memory.lent())),
            Call::Run(limit, asked) => say_answer(
                out,
                store::run(image.part(asked), memory.lent(), limit),
            ),
            Call::Fill(block, byte) => replay_text::fill(out, image.all(), block, byte),
            Call::Show(block) => replay_text::show(out, image.all(), block),
            Call::Digest => replay_text::say_digest(out, image.lent()),
            _ => on_memory(out, memory.lent(), call),
        }
    }

    // Replays a line that leaves what is lent.
    pub fn line(&mut self, out: &mut impl Write, line: &str) -> io::Result<()> {
        let mut room = Room::new();
        match replay_script::call_of_text(line, &mut room) {
            Some(call) => self.call(out, call),
            None => replay_text::bad_line(out),
        }
    }
}
