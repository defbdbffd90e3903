// The end of a reference's name by the search for one byte: `;` alone is looked for, and whether a `&` stands before it is asked of the
// name that was found. Near bytes are looked for one by one, far ones by blocks that run on vectors.
#![tactic(auto)]

ghost use Rattle.std.specs.Prelude.{◌≡◌, true, false, ◌+◌, ◌≤◌, length};
ghost use Rattle.output.specs.Runs.{Plain};
ghost use Rattle.runs.specs.RunEnds.{RunEnd};
ghost use Rattle.tokens.specs.Walking.{NameEnd};
ghost use Rattle.name_ends.specs.OneByte.{is_byte};

use runs::byte::{any_byte, blocks_without, byte_end, near_byte};

// The next `b` from `from` on, or the text's end, by blocks.
fn far_byte(text: &[u8], from: usize, b: u8) -> usize
    requires { from ≤ length text.now }
    ensures { RunEnd (is_byte b) text.now from result }
{
    let i = blocks_without::<16>(text, blocks_without::<32>(text, from, b), b);
    if 16 <= text.len() - i {
        if let Some(near) = near_byte::<16>(text, i, b) {
            return near;
        }
    }
    byte_end(text, i, b)
}

// The next `b` from `from` on, or the text's end. Most are near.
pub fn next_byte(text: &[u8], from: usize, b: u8) -> usize
    requires { from ≤ length text.now }
    ensures { RunEnd (is_byte b) text.now from result }
{
    if text.len() - from < 16 {
        return byte_end(text, from, b);
    }
    // Not near_byte: with two users here it is called, and long names take 2 % more.
    for k in 0..16usize {
        if text[from + k] == b {
            return from + k;
        }
    }
    far_byte(text, from + 16, b)
}

// May there be a `&` in the name? Where not, there is none. The first and the last bytes, which may overlap, and blocks between them.
fn may_have_amp(name: &[u8]) -> bool
    ensures { result ≡ false → Plain (is_byte 38) name.now 0 (length name.now) }
{
    let n = name.len();
    if n < 8 {
        return byte_end(name, 0, b'&') < n;
    }
    if n <= 16 {
        if any_byte(name, 0, 8, b'&') {
            return true;
        }
        return any_byte(name, n - 8, 8, b'&');
    }
    if 16 <= n - blocks_without::<16>(name, 0, b'&') {
        return true;
    }
    any_byte(name, n - 16, 16, b'&')
}

// The `;` that ends the name; the text's length where there is none, and where a `&` before it is none.
pub fn inner_end(text: &[u8], from: usize) -> usize
    requires { from ≤ length text.now }
    ensures { NameEnd true text.now from result }
{
    let end = next_byte(text, from, b';');
    if may_have_amp(&text[from..end]) {
        return tokens::name_end(text, from, true);
    }
    end
}

// The `;` that ends the name, whatever stands before it; the text's length where there is none. Most names are short: their loop is small enough
// to be compiled into a walk.
pub fn outer_end(text: &[u8], from: usize) -> usize
    requires { from ≤ length text.now }
    ensures { NameEnd false text.now from result }
{
    let size = (text.len() - from).min(16);
    // By hand: with an iterator short names take 2 % more.
    let mut k: usize = 0;
    while k < size {
        if text[from + k] == b';' {
            return from + k;
        }
        k += 1;
    }
    next_byte(text, from + size, b';')
}
