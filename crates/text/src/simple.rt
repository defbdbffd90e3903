// Does a text stand for itself? Where every byte is printable ASCII and none is `&`, it is well-formed UTF-8 and has no stop of any reading
// (`Simple` of specs/Simple.antt, laws in proofs/Printable.antt), so that one look tells both. By blocks that run on vectors.
ghost use Rattle.std.specs.Prelude.{◌≡◌, true, false, ◌+◌, ◌≤◌, length};
ghost use Rattle.text.specs.Simple.{SimplePart, Simple};

// Is one of the `size` bytes from i on special? An accumulator for each test: the loop then runs on vectors wherever it is compiled into.
fn any_special(text: &[u8], i: usize, size: usize) -> bool
    requires { i + size ≤ length text.now }
    ensures { result ≡ false → SimplePart text.now i (i + size) }
{
    let mut outside = false;
    let mut amp = false;
    for &b in &text[i..i + size] {
        outside = outside | ((b < 32) | (126 < b));
        amp = amp | (b == b'&');
    }
    outside | amp
}

fn simple_bytes(text: &[u8]) -> bool
    ensures { result ≡ true → Simple text.now }
{
    for &b in text {
        if (b < 32) | (126 < b) | (b == b'&') {
            return false;
        }
    }
    true
}

// Blocks of `size` bytes, the last of which is looked at first and may overlap with the one before it.
fn simple_blocks(text: &[u8], size: usize) -> bool
    requires { (1 ≤ size) × (size ≤ length text.now) }
    ensures { result ≡ true → Simple text.now }
{
    if any_special(text, text.len() - size, size) {
        return false;
    }
    let mut i: usize = 0;
    while size < text.len() - i {
        if any_special(text, i, size) {
            return false;
        }
        i += size;
    }
    true
}

// Is every byte printable ASCII other than `&`?
pub fn is_simple(text: &[u8]) -> bool
    ensures { result ≡ true → Simple text.now }
{
    if text.len() < 8 {
        return simple_bytes(text);
    }
    if text.len() < 16 {
        return simple_blocks(text, 8);
    }
    if text.len() < 32 {
        return simple_blocks(text, 16);
    }
    simple_blocks(text, 32)
}
