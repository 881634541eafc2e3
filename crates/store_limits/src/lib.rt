//! Whether a store is too large, by its numbers: the ceiling of its rows, its serials, the room for its bytes; the
//! ceiling of its attributes.
#![tactic(auto)]

ghost use Rattle.std.specs.Prelude.{◌≡◌, ◌≤◌, leb};
ghost use Rattle.rules.specs.Given.{number_given};
ghost use Rattle.layout.specs.Bodies.{Width, most_form};
ghost use Rattle.store_limits.specs.Limits.{limit_of};

use rules::Refusal;

/// The ceiling of tree rows, and one more: a walk that has so many to write and leaves none passes the ceiling.
pub const ROWS_PAST_CEILING: usize = 4097;

/// Refusals 16, 17 and 18 of a store of so many rows, with a form of so many bytes and a next serial, in such a room.
pub fn limit(w: usize, form: usize, count: usize, next: usize, room: usize) -> Result<(), Refusal>
    requires { Width w × (form ≤ most_form) }
    ensures { number_given result ≡ limit_of w form count next room }
{
    if count >= ROWS_PAST_CEILING {
        return Err(Refusal::Ceiling);
    }
    if next > 4294967295 {
        return Err(Refusal::Serials);
    }
    let rows = layout::times(layout::row_size(w), count);
    if layout::header_size() + form + rows > room {
        return Err(Refusal::Buffer);
    }
    Ok(())
}

/// Whether a form of so many attributes takes no more.
pub fn attributes_full(count: usize) -> bool
    ensures { result ≡ leb 64 count }
{
    count >= layout::MAX_ATTRIBUTES
}
