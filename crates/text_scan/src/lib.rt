//! Words on texts: names, lines, values.
#![tactic(auto)]

ghost use Rattle.std.specs.Prelude.{◌≡◌, not, eqb, length, get_or, drop, ℕ, ◌+◌, ◌<◌};
ghost use Rattle.rules.specs.WellFormed.{in_name};
ghost use Rattle.text_scan.specs.Scan.{front_while, starts_with, escaped_at, plain_at, character_of, Unescapes};

/// How many bytes of names the text begins with.
pub fn name_length(text: &[u8]) -> usize
    ensures { result ≡ length (front_while in_name text.now) }
{
    text.iter()
        .position(|x| !byte_check::in_name(*x))
        .unwrap_or(text.len())
}

/// How many bytes stand before the first `stop`, or in the whole text.
pub fn length_before(text: &[u8], stop: u8) -> usize
    ensures { result ≡ length (front_while (λ (x : ℕ). not (eqb x stop)) text.now) }
{
    text.iter().position(|x| *x == stop).unwrap_or(text.len())
}

/// Whether the text begins with the word.
// The library's, with the clause in the words of the rules.
pub fn starts_with(text: &[u8], word: &[u8]) -> bool
    ensures { result ≡ starts_with word.now text.now }
{
    text.starts_with(word)
}

// A byte of a value, and how many bytes of the text stand for it.
#[derive(Clone, Copy)]
struct Character {
    byte: u8,
    size: usize,
}

// The byte whose escape goes on with this text after its `&`; none if none does.
fn escaped(text: &[u8]) -> Option<Character>
    ensures { result ≡ character_of (escaped_at text.now) }
{
    if starts_with(text, b"amp;") {
        return Some(Character {
            byte: b'&',
            size: 5,
        });
    }
    if starts_with(text, b"lt;") {
        return Some(Character {
            byte: b'<',
            size: 4,
        });
    }
    if starts_with(text, b"gt;") {
        return Some(Character {
            byte: b'>',
            size: 4,
        });
    }
    if starts_with(text, b"quot;") {
        return Some(Character {
            byte: b'"',
            size: 6,
        });
    }
    None
}

// The byte of the value that stands at i. A `<`, a `>` and a `"` stand only as their escapes.
fn character_at(raw: &[u8], i: usize) -> Option<Character>
    requires { i < length raw.now }
    ensures { result ≡ character_of (plain_at (get_or raw.now i 0) (drop (i + 1) raw.now)) }
{
    match raw[i] {
        b'&' => escaped(codec::after(raw, i + 1)),
        b'<' | b'>' | b'"' => None,
        byte => Some(Character { byte, size: 1 }),
    }
}

/// Writes the value that an escaped one stands for, as far as `value` goes, and hands back its length; none if the
/// text is no escape of a value.
pub fn unescape(raw: &[u8], value: &mut [u8]) -> Option<usize>
    ensures { Unescapes raw.now value.old result value.new }
{
    let mut at = 0;
    let mut i = 0;
    // A `while`, since an escape has from one to six bytes.
    while i < raw.len() {
        let found = character_at(raw, i)?;
        codec::store(value, at, found.byte);
        at += 1;
        i += found.size;
    }
    Some(at)
}
