//! Copies of bytes from one byte string to the front of another.
#![tactic(auto)]

ghost use Rattle.std.specs.Prelude.{◌≡◌, ◌++◌, ◌+◌, ◌≤◌, length, take, drop};
ghost use Rattle.std.proofs.lemmas.List.Edits.{sets};

// Copies the eight bytes from i on.
fn copy_eight(src: &[u8], out: &mut [u8], i: usize)
    requires { (i + 8 ≤ length src.now) × (i + 8 ≤ length out.old) }
    ensures { out.new ≡ sets out.old i (take 8 (drop i src.now)) }
{
    out[i..i + 8].copy_from_slice(&src[i..i + 8]);
}

fn copy_singly(src: &[u8], out: &mut [u8])
    requires { length src.now ≤ length out.old }
    ensures { out.new ≡ src.now ++ drop (length src.now) out.old }
{
    for (i, x) in src.iter().enumerate() {
        out[i] = *x;
    }
}

/// Copies all of src to the front of out.
// By eights, the last eight over some of those before: for short strings one copy of the library's is slower.
pub fn copy(src: &[u8], out: &mut [u8]) -> usize
    requires { length src.now ≤ length out.old }
    ensures { (result ≡ length src.now) × (out.new ≡ src.now ++ drop (length src.now) out.old) }
{
    let n = src.len();
    if n < 8 {
        copy_singly(src, out);
        return n;
    }
    let last = n - 8;
    let mut i = 0;
    while i < last {
        copy_eight(src, out, i);
        i += 8;
    }
    copy_eight(src, out, last);
    n
}
