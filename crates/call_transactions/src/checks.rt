// The tests of insert, replace and delete, in their order: the first that holds refuses.
ghost use Rattle.std.specs.Prelude.{◌≡◌, true, length};
ghost use Rattle.model.specs.Transactions.{full, argument_tests};
ghost use Rattle.memory_layout.specs.Flat.{flat_of};
ghost use Rattle.memory_layout.specs.Store.{holds_store, store_in, store_of};
ghost use Rattle.engine_lookup.specs.Lookup.{Inside};
ghost use Rattle.refusals.specs.Numbers.{number_in};
ghost use Rattle.call_transactions.specs.Refusals.{first_refusal, refusal_in, found_tests};

use super::{LAST_NUMBER, TABLE_LIMIT, check_open};
use block_forms::PageLayout;
use engine_lookup::Visibility;
use refusals::Refusal;

// 4, 6, 7; 10 table above 7; 11 payload, of len bytes, too long.
pub fn check_call(m: &[u8], transaction: u64, table: u64, len: usize) -> Result<(), Refusal>
    ensures { number_in result ≡ refusal_in (store_in m.now) (argument_tests transaction table len) }
{
    check_open(m, transaction)?;
    if TABLE_LIMIT < table {
        return Err(Refusal::TableRange);
    }
    if PageLayout::PAYLOAD_LIMIT < len {
        return Err(Refusal::PayloadLong);
    }
    Ok(())
}

// 15 N tuples held; 16 next number is 4,294,967,295.
pub fn check_full(m: &[u8]) -> Result<(), Refusal>
    requires { holds_store m.now ≡ true }
    ensures { number_in result ≡ first_refusal (full (store_of (flat_of m.now))) }
{
    let h = memory_layout::get_head(m);
    let c = memory_layout::get_counts(m);
    if h.capacity <= c.rows {
        return Err(Refusal::Full);
    }
    if h.next == LAST_NUMBER {
        return Err(Refusal::NumbersExhausted);
    }
    Ok(())
}

// By what there is of the key: 12 a tentative tuple of another transaction; 13 it is seen and is to be new; 14 it is not seen and is not to be
// new; 15, 16.
pub fn check_key(m: &[u8], new: bool, visibility: Visibility) -> Result<(), Refusal>
    requires { (holds_store m.now ≡ true) × Inside (flat_of m.now) visibility.own }
    ensures { number_in result ≡ first_refusal (found_tests new (flat_of m.now) visibility) }
{
    if visibility.foreign {
        return Err(Refusal::Conflict);
    }
    match engine_lookup::pick(m, visibility) {
        Some(_) => {
            if new {
                return Err(Refusal::KeyExists);
            }
        }
        None => {
            if !new {
                return Err(Refusal::NotFound);
            }
        }
    }
    check_full(m)
}
