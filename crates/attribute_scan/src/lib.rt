//! The line of an attribute, read and written as its record.
#![tactic(auto)]

ghost use Rattle.std.specs.Prelude.{◌≡◌, ◌<◌, ◌≤◌, length, take};
ghost use Rattle.rules.specs.Layout.{name_width, attribute_bytes, sort_code};
ghost use Rattle.codec.specs.Laid.{Laid};
ghost use Rattle.layout.specs.Bodies.{Width};
ghost use Rattle.layout.specs.RecordBytes.{attribute_of};
ghost use Rattle.declaration_scan.specs.Declared.{declared_sort, declared_value, attribute_of_line};
ghost use Rattle.attribute_scan.specs.Values.{quoted_value};

use rules::AttributeSort;

// The sort that stands after the type.
fn declared_sort(text: &[u8]) -> AttributeSort
    ensures { sort_code result ≡ declared_sort text.now }
{
    if text_scan::starts_with(text, b"#I") {
        return AttributeSort::Implied;
    }
    if text_scan::starts_with(text, b"#R") {
        return AttributeSort::Required;
    }
    AttributeSort::Fixed
}

// Writes an attribute whose value stands in quotes after `#FIXED`; one that is no escape of a value is kept as none.
// The value is unescaped into an array, as there is no heap.
fn put_fixed(w: usize, owner: u8, name: &[u8], text: &[u8], out: &mut [u8], at: usize) -> usize
    requires { Width w × (length name.now ≤ name_width) × (at < 1152921504606846976) }
    ensures { Laid (attribute_bytes w (attribute_of owner name.now 2 (take w (quoted_value text.now)))) out.old at result out.new }
{
    let quoted = codec::after(text, 8);
    let raw = codec::first(quoted, text_scan::length_before(quoted, b'"'));
    let mut value = [0; 256];
    let n = text_scan::unescape(raw, &mut value).unwrap_or(0);
    let kept = codec::first(&value, layout::least(n, w));
    let code = u8::from(AttributeSort::Fixed);
    layout_writer::put_attribute(w, owner, name, code, kept, out, at)
}

// Writes an attribute by what stands after its type; a required one is filled with `-`.
fn put_declared(w: usize, owner: u8, name: &[u8], text: &[u8], out: &mut [u8], at: usize) -> usize
    requires { Width w × (length name.now ≤ name_width) × (at < 1152921504606846976) }
    ensures { Laid (attribute_bytes w (attribute_of owner name.now (declared_sort text.now) (take w (declared_value text.now))))
        out.old at result out.new }
{
    let sort = declared_sort(text);
    let code = u8::from(sort);
    match sort {
        AttributeSort::Implied => {
            layout_writer::put_attribute(w, owner, name, code, codec::first(text, 0), out, at)
        }
        AttributeSort::Required => {
            let fill = codec::first(b"-", w);
            layout_writer::put_attribute(w, owner, name, code, fill, out, at)
        }
        AttributeSort::Fixed => put_fixed(w, owner, name, text, out, at),
    }
}

/// Writes the attribute that a line declares, of definition number `owner`.
pub fn put_attribute_line(w: usize, owner: u8, line: &[u8], out: &mut [u8], at: usize) -> usize
    requires { Width w × (at < 1152921504606846976) }
    ensures { Laid (attribute_bytes w (attribute_of_line w owner line.now)) out.old at result out.new }
{
    let content = declaration_scan::after_declared(line);
    let name = declaration_scan::name_here(content);
    let text = codec::after(declaration_scan::after_name(content), 7);
    put_declared(w, owner, name, text, out, at)
}
