//! Whether an instance of a definition exists.
#![tactic(auto)]

ghost use Rattle.std.specs.Prelude.{◌≡◌};
ghost use Rattle.rules.specs.Decode.{read_row};
ghost use Rattle.instance_search.specs.Instances.{instance_row, has_instance, refused_where};

use rules::RowSort;

// Whether a row is an element of a definition.
fn is_instance(row: &[u8], definition: u32) -> bool
    ensures { result ≡ instance_row definition (read_row row.now) }
{
    let element = layout::row_sort_of(row) == Some(RowSort::Element);
    element & (layout::row_index(row) == definition)
}

/// Whether an instance of a definition exists.
pub fn instance_exists(store: &[u8], definition: u32) -> bool
    ensures { result ≡ has_instance store.now definition }
{
    let w = layout::width_in(store);
    let rows = layout::rows_of(store);
    (0..layout::row_count(store)).any(|i| is_instance(layout::row_at(w, rows, i), definition))
}

/// The refusal that applies where an instance of a definition exists.
pub fn instance_refusal<E: Copy>(store: &[u8], definition: u32, refusal: E) -> Result<(), E>
    ensures { result ≡ refused_where (has_instance store.now definition) refusal }
{
    if instance_exists(store, definition) {
        return Err(refusal);
    }
    Ok(())
}
