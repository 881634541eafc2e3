//! The calls that write nothing: the check of a store, and the look-up of a value.
#![tactic(auto)]

ghost use Rattle.std.specs.Prelude.{◌≡◌};
ghost use Rattle.rules.specs.Passing.{passes};
ghost use Rattle.rules.specs.LookUp.{look_up};
ghost use Rattle.rules.specs.Given.{number_given};
ghost use Rattle.lookup.specs.Finding.{Looks, Hands, part_given};
ghost use Rattle.look_up_calls.specs.Calls.{check_answer};

pub use lookup::Found;
use rules::Refusal;

/// 0 if the store passes the check, 1 if it does not: numbers, since C gets them from `formstore_check`
/// (include/formstore.h).
pub fn check(store: &[u8]) -> u32
    ensures { result ≡ check_answer (passes store.now) }
{
    if store_check::passes(store) { 0 } else { 1 }
}

/// The part of the store that is the value of the attribute or text row with a serial. On a bad store the refusal is 1,
/// on any other serial 7.
pub fn look_up(store: &[u8], serial: u32) -> Result<&[u8], Refusal>
    ensures { Hands (look_up store.now serial) store.now (part_given result) (number_given result) }
{
    if !store_check::passes(store) {
        return Err(Refusal::BadStore);
    }
    lookup::value_of(store, serial)
}

/// The look-up by places: what C callers get.
pub fn look_up_place(store: &[u8], serial: u32) -> Found
    ensures { Looks (look_up store.now serial) result.number result.start result.length }
{
    if !store_check::passes(store) {
        return Found::from(Err(Refusal::BadStore));
    }
    Found::from(lookup::find_value(store, serial))
}
