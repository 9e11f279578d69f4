// The reply of crossing. The keys are found into a buffer first, so that a reply which is too short is not written.
ghost use Rattle.std.specs.Prelude.{length};
ghost use Rattle.model.specs.Crossing.{keys_reply};
ghost use Rattle.call_contracts.specs.Shape.{Replies};
ghost use Rattle.engine_crossing.specs.Crossing.{KeysAsked, RoomForKeys};

use call_contracts::{Answer, Reply};
use refusals::Refusal;

// The bytes of as many keys as a store holds tuples.
const KEYS_SIZE: usize = 4 * memory_layout::CAPACITY_LIMIT as usize;

// 21 reply too short; else the keys that cross, over its first bytes.
fn reply_keys(
    m: &[u8],
    table: u8,
    transaction: u64,
    first: u64,
    end: u64,
    keys: &mut [u8],
    reply: &mut [u8],
) -> Answer
    requires { KeysAsked m.now table first end × RoomForKeys keys.old }
    ensures { Replies (keys_reply transaction table first end (length reply.old)) m.now result reply.old reply.new }
{
    let n = engine_crossing::find_crossing(m, table, transaction, first, end, keys);
    if reply.len() < 4 * n {
        return Err(Refusal::ReplyShort);
    }
    memory_bytes::copy_out(keys, 0, 4 * n, reply);
    Ok(Reply::Filled(n))
}

// The same, with a buffer for the keys.
pub fn reply_crossing(
    m: &[u8],
    table: u8,
    transaction: u64,
    first: u64,
    end: u64,
    reply: &mut [u8],
) -> Answer
    requires { KeysAsked m.now table first end }
    ensures { Replies (keys_reply transaction table first end (length reply.old)) m.now result reply.old reply.new }
{
    let mut keys = [0u8; KEYS_SIZE];
    reply_keys(m, table, transaction, first, end, &mut keys, reply)
}
