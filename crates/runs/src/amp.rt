// The search for `&`, at which a run of unescaping ends, and the copies that are made while it is searched. After a run of `last` bytes the
// next `&` is often about as far: near ones are looked for byte by byte, far ones by blocks that run on vectors. Every search is proved
// to find what `RunEnd` over `is_amp` says, every copy to write what `Put` says, as much as there is room for (specs/RunEnds.antt).
ghost use Rattle.std.specs.Prelude.{◌≡◌, true, ◌+◌, ◌≤◌, ◌<◌, length, IfSome, IfNone};
ghost use Rattle.output.specs.Runs.{Plain};
ghost use Rattle.runs.specs.RunEnds.{RunEnd, Put, is_amp};

use crate::byte::{any_byte, blocks_without, byte_end, near_byte};

// Has the text no `&`? The bytes after its last whole block are tested in one that ends with the text.
pub fn is_whole(text: &[u8]) -> bool
    ensures { result ≡ true → Plain is_amp text.now 0 (length text.now) }
{
    let block = blocks_without::<16>(text, blocks_without::<64>(text, 0, b'&'), b'&');
    if 16 <= text.len() - block {
        return false;
    }
    if text.len() < 16 {
        return byte_end(text, block, b'&') == text.len();
    }
    !any_byte(text, text.len() - 16, 16, b'&')
}

// The next `&` from `from` on, or the text's end, by blocks. After a short run, of `last` bytes, it is often near, and is looked for
// byte by byte first; after a long one it is often far, and is looked for by wider blocks.
fn amp_end(text: &[u8], from: usize, last: usize) -> usize
    requires { from ≤ length text.now }
    ensures { RunEnd is_amp text.now from result }
{
    let mut i = from;
    if 16 <= last {
        i = blocks_without::<32>(text, from, b'&');
    } else if 12 <= text.len() - from {
        if let Some(near) = near_byte::<12>(text, from, b'&') {
            return near;
        }
        i = from + 12;
    }
    // By hand: the answer is a place, which chunks_exact does not count.
    while 16 <= text.len() - i {
        if any_byte(text, i, 16, b'&') {
            if let Some(near) = near_byte::<16>(text, i, b'&') {
                return near;
            }
        }
        i += 16;
    }
    byte_end(text, i, b'&')
}

// The next `&` among N bytes; the bytes before it are copied, or all of them.
fn put_near<const N: usize>(text: &[u8], from: usize, out: &mut [u8]) -> Option<usize>
    requires size_in_bounds { from + N ≤ length text.now }
    requires size_in_bounds_2 { N ≤ length out.old }
    ensures found { IfSome result (λ e. RunEnd is_amp text.now from e × (e < from + N) × Put text.now from e out.old out.new) }
    ensures none { IfNone result (Plain is_amp text.now from (from + N) × Put text.now from (from + N) out.old out.new) }
{
    for k in 0..N {
        let b = text[from + k];
        if b == b'&' {
            return Some(from + k);
        }
        out[k] = b;
    }
    None
}

// The next `&` from `from` on, or the text's end; the bytes before it are copied while it is searched, one by one.
fn put_bytes(text: &[u8], from: usize, out: &mut [u8]) -> usize
    requires { from ≤ length text.now }
    ensures { RunEnd is_amp text.now from result × Put text.now from result out.old out.new }
{
    for i in from..text.len() {
        let b = text[i];
        if b == b'&' {
            return i;
        }
        output::put_byte(b, i - from, out);
    }
    text.len()
}

// Copies blocks of 32 bytes that have no `&`, among the `room` bytes from `from` on. How many bytes these are.
fn put_wide(text: &[u8], from: usize, room: usize, out: &mut [u8]) -> usize
    requires { (from + room ≤ length text.now) × (room ≤ length out.old) }
    ensures { (result ≤ room) × Plain is_amp text.now from (from + result) × Put text.now from (from + result) out.old out.new }
{
    let mut k: usize = 0;
    while 32 <= room - k {
        let i = from + k;
        if any_byte(text, i, 32, b'&') {
            return k;
        }
        crate::put_two_blocks(&text[i..i + 32], &mut out[k..]);
        k += 32;
    }
    k
}

// The next `&` from `from` on, or the text's end, with the bytes before it copied: by blocks, as amp_end looks for it.
fn put_to_amp(text: &[u8], from: usize, last: usize, out: &mut [u8]) -> usize
    requires { from ≤ length text.now }
    ensures { RunEnd is_amp text.now from result × Put text.now from result out.old out.new }
{
    let room = (text.len() - from).min(out.len());
    let mut k: usize = 0;
    if 16 <= last {
        k = put_wide(text, from, room, out);
    } else if 12 <= room {
        if let Some(near) = put_near::<12>(text, from, out) {
            return near;
        }
        k = 12;
    }
    while 16 <= room - k {
        let i = from + k;
        if any_byte(text, i, 16, b'&') {
            if let Some(near) = put_near::<16>(text, i, &mut out[k..]) {
                return near;
            }
        } else {
            output::put_block(&text[i..i + 16], &mut out[k..]);
        }
        k += 16;
    }
    put_bytes(text, from + k, &mut out[k..])
}

// The same as put_to_amp. A walk that counts has no output, and only searches.
pub fn run_to_amp(text: &[u8], from: usize, last: usize, out: &mut [u8]) -> usize
    requires { from ≤ length text.now }
    ensures { RunEnd is_amp text.now from result × Put text.now from result out.old out.new }
{
    if out.is_empty() {
        return amp_end(text, from, last);
    }
    put_to_amp(text, from, last, out)
}
