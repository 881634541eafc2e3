//! The escape of a value in the text of a store.
#![tactic(auto)]

ghost use Rattle.std.specs.Prelude.{◌≡◌, true, ◌+◌, ◌*◌, ◌<◌, length};
ghost use Rattle.rules.specs.Print.{escape, escape_byte};
ghost use Rattle.codec.specs.Laid.{Laid};

// Writes a byte, escaped if it is one of the four.
fn put_escaped_byte(x: u8, out: &mut [u8], at: usize) -> usize
    requires { at < 9223372036854775808 }
    ensures { Laid (escape_byte x) out.old at result out.new }
{
    match x {
        b'&' => codec::put(b"&amp;", out, at),
        b'<' => codec::put(b"&lt;", out, at),
        b'>' => codec::put(b"&gt;", out, at),
        b'"' => codec::put(b"&quot;", out, at),
        _ => codec::put_u8(out, at, x),
    }
}

// Whether no byte is escaped.
fn is_plain(value: &[u8]) -> bool
    ensures { result ≡ true → escape value.now ≡ value.now }
{
    for x in value {
        if (*x == b'&') | (*x == b'<') | (*x == b'>') | (*x == b'"') {
            return false;
        }
    }
    true
}

/// Writes a value, escaped; one with nothing to escape is written whole.
pub fn put_escaped(value: &[u8], out: &mut [u8], start: usize) -> usize
    requires { start + 6 * length value.now < 9223372036854775808 }
    ensures { Laid (escape value.now) out.old start result out.new }
{
    if is_plain(value) {
        return codec::put(value, out, start);
    }
    let mut at = start;
    for x in value {
        at = put_escaped_byte(*x, out, at);
    }
    at
}
