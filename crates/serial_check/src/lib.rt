//! The serials of the tree rows of a store: no two alike.
#![tactic(auto)]

ghost use Rattle.std.specs.Prelude.{◌≡◌, ◌<◌, ◌≤◌};
ghost use Rattle.rules.specs.Bytes.{numbers};
ghost use Rattle.rules.specs.Model.{distinct};
ghost use Rattle.serial_check.specs.Serials.{serials_of, serial_at_row};
ghost use Rattle.serial_check.specs.Trees.{Rising, Sought, Trees, Put};

use layout::MAX_ROWS;
use layout::rows::Rows;

// Four for each row.
const PLACES: usize = 16384;

// Not `layout::row_serial_at` itself: the laws of the trees have the serial by the name `serial_at_row`.
fn serial_at(rows: Rows, k: usize) -> u32
    requires { k < 4096 }
    ensures { result ≡ serial_at_row rows.entry.width rows.entry.bytes.now k }
{
    layout::row_serial_at(rows.width, rows.bytes, k)
}

// The place below the row `from - 1` to which the walk for the serial s comes; none where it meets a row with that
// serial. What stands below a row is a later one, so the walk ends.
fn sought(rows: Rows, below: &[u16; PLACES], from: u16, s: u32) -> Option<usize>
    requires { (0 < from) × (from ≤ 4096) × Rising below.now 4096 }
    ensures { Sought rows.entry.width rows.entry.bytes.now below.now from s result }
{
    let mut j = (from - 1) as usize;
    let mut rest = s / 4096;
    // It follows links from row to row: no range or list of them is there to iterate over.
    loop {
        if serial_at(rows, j) == s {
            return None;
        }
        let at = 4 * j + (rest % 4) as usize;
        let h = below[at];
        if h == 0 {
            return Some(at);
        }
        rest = rest / 4;
        j = (h - 1) as usize;
    }
}

// Puts row k, whose serial is s, into the tree of its remainder; false where a row with that serial is there.
fn put_in_tree(
    rows: Rows,
    heads: &mut [u16; MAX_ROWS],
    below: &mut [u16; PLACES],
    k: usize,
    s: u32,
) -> bool
    requires { (k < 4096) × (s ≡ serial_at_row rows.width rows.bytes.now k) × Trees rows.width rows.bytes.now heads.old below.old k }
    ensures { Put rows.entry.width rows.entry.bytes.now heads.new below.new k result }
{
    let b = (s % 4096) as usize;
    let h = heads[b];
    if h == 0 {
        heads[b] = (k + 1) as u16;
        return true;
    }
    let Some(at) = sought(rows, below, h, s) else {
        return false;
    };
    below[at] = (k + 1) as u16;
    true
}

/// Whether no two of the rows have one serial.
// Rows whose serials have the same remainder by 4096 are in one tree, below its root by the other bits of their
// serials, two at a time: a row is compared only with those on its way, at most 11.
pub fn serials_differ(rows: Rows) -> bool
    requires { rows.count ≤ 4096 }
    ensures { result ≡ distinct numbers (serials_of rows.entry.width rows.entry.count rows.entry.bytes.now) }
{
    // Arrays with row numbers from 1 on, 0 for none: no heap, and an Option of a number would take twice the memory.
    let mut heads: [u16; MAX_ROWS] = [0; MAX_ROWS];
    let mut below: [u16; PLACES] = [0; PLACES];
    for k in 0..rows.count {
        let s = serial_at(rows, k);
        if !put_in_tree(rows, &mut heads, &mut below, k, s) {
            return false;
        }
    }
    true
}
