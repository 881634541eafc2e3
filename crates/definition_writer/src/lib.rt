//! The header with other counts, which changes 1 and 2 write, and whether a name is taken, which change 1 asks.
#![tactic(auto)]

ghost use Rattle.std.specs.Prelude.{◌≡◌, ◌≤◌};
ghost use Rattle.rules.specs.Decode.{number_at, row_count};
ghost use Rattle.codec.specs.Laid.{Laid};
ghost use Rattle.layout.specs.Bodies.{width_of};
ghost use Rattle.layout.specs.Header.{headed};
ghost use Rattle.lookup.specs.Bodies.{bodies_of};
ghost use Rattle.definition_writer.specs.Bodies.{named};
ghost use Rattle.layout.specs.Fields.{next_at};

/// Writes the header of a store with other counts of its form; version, next serial and rows are as the store has them.
pub fn put_header(store: &[u8], d: usize, p: usize, a: usize, out: &mut [u8]) -> usize
    requires { (d ≤ 65) × (p ≤ 256) × (a ≤ 64) }
    ensures { Laid (headed (width_of store.now) (number_at next_at 4 store.now) d p a (row_count store.now) store.now)
        out.old 0 result out.new }
{
    let w = layout::width_in(store);
    let next = layout::next_serial(store);
    let rows = layout::row_count(store);
    layout_writer::put_header(w, store, next, d, p, a, rows, out)
}

/// Whether a definition has the name.
pub fn name_exists(store: &[u8], name: &[u8]) -> bool
    ensures { result ≡ named name.now (bodies_of store.now).definitions }
{
    let count = layout::definition_count(store);
    let defs = layout::definitions_of(store);
    for i in 0..count {
        if codec::equal(
            name,
            layout::definition_name(layout::definition_at(defs, i)),
        ) {
            return true;
        }
    }
    false
}
