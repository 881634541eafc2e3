//! Tests of each byte of a byte string: zeros, the bytes of names, printable ones.
#![tactic(auto)]

ghost use Rattle.std.specs.Prelude.{◌≡◌, ℕ, Bool};
ghost use Rattle.rules.specs.Bytes.{all, between};
ghost use Rattle.rules.specs.WellFormed.{starts_name, in_name, reserved_name};
ghost use Rattle.byte_check.specs.Zeros.{zeros};

// Whether all bytes of a part pass a test, with no jump from one to the next.
fn part_passes<F: Fn(u8) -> bool>(part: &[u8], passes: &F) -> bool
    requires { F.IsAlwaysCallable passes.now }
    ensures { (p : ℕ → Bool) → ((x : ℕ) (r : Bool) → F.post passes.now x r → r ≡ p x) → result ≡ all p part.now }
{
    let mut all = true;
    for x in part {
        all &= passes(*x);
    }
    all
}

// Whether all bytes pass a test.
// By eights, with the last eight over some of those before: `.all(..)`, which jumps at each byte, takes three times as
// many instructions (callgrind, fields of up to 32 bytes).
fn all_pass<F: Fn(u8) -> bool>(s: &[u8], passes: F) -> bool
    requires { F.IsAlwaysCallable passes }
    ensures { (p : ℕ → Bool) → ((x : ℕ) (r : Bool) → F.post passes x r → r ≡ p x) → result ≡ all p s.now }
{
    if s.len() < 8 {
        return part_passes(s, &passes);
    }
    for part in s[..s.len() - 1].chunks_exact(8) {
        if !part_passes(part, &passes) {
            return false;
        }
    }
    part_passes(&s[s.len() - 8..], &passes)
}

/// Whether all bytes are 0.
pub fn zeros(s: &[u8]) -> bool
    ensures { result ≡ zeros s.now }
{
    all_pass(s, |x| x == 0)
}

/// Whether a byte may begin a name.
pub fn starts_name(x: u8) -> bool
    ensures { result ≡ starts_name x }
{
    ((b'A' <= x) & (x <= b'Z')) | ((b'a' <= x) & (x <= b'z')) | (x == b'_')
}

/// Whether a byte may stand in a name.
pub fn in_name(x: u8) -> bool
    ensures { result ≡ in_name x }
{
    // Most bytes of names are small letters: they are asked for first.
    if (b'a' <= x) & (x <= b'z') {
        return true;
    }
    starts_name(x) | ((b'0' <= x) & (x <= b'9')) | (x == b'-') | (x == b'.')
}

/// Whether all bytes may stand in a name.
pub fn all_in_name(s: &[u8]) -> bool
    ensures { result ≡ all in_name s.now }
{
    s.iter().all(|x| in_name(*x))
}

/// Whether XML 1.0 reserves a name that begins with these bytes: the first three are x, m, l, each in either case.
pub fn is_reserved(s: &[u8]) -> bool
    ensures { result ≡ reserved_name s.now }
{
    if s.len() < 3 {
        return false;
    }
    let x = (s[0] == b'x') | (s[0] == b'X');
    let m = (s[1] == b'm') | (s[1] == b'M');
    let l = (s[2] == b'l') | (s[2] == b'L');
    x & (m & l)
}

fn printable(x: u8) -> bool
    ensures { result ≡ between 0x20 0x7E x }
{
    (b' ' <= x) & (x <= b'~')
}

/// Whether all bytes are printable.
pub fn all_printable(s: &[u8]) -> bool
    ensures { result ≡ all (between 0x20 0x7E) s.now }
{
    all_pass(s, printable)
}
