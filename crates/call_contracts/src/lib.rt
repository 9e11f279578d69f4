// What every public call answers. The contracts of the calls are relations of specs/Shape, for the crates that have calls.
#![tactic(auto)]

use refusals::Refusal;

// What an accepted call answers: that it is done; a count; how many a filled reply has.
#[derive(Clone, Copy, Debug, PartialEq, Eq)]
pub enum Reply {
    Done,
    Count(u64),
    Filled(usize),
}

pub type Answer = Result<Reply, Refusal>;

// What a logged call answers: the call's answer, and where the log then ends. After a refusal that is where it ended before, which callers
// go on with too: so the end is no part of the answer.
#[derive(Clone, Copy, Debug, PartialEq, Eq)]
pub struct Logged {
    pub answer: Answer,
    pub end: u64,
}
