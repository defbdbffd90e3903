// What every writer shares: a run of bytes, written at the start of the output that is lent. A writer that clips writes as much as
// there is room for, so that a walk over an output of no bytes counts.
#![tactic(auto)]

ghost use Rattle.std.specs.Prelude.{◌≡◌, ◌+◌, ◌≤◌, min, false, length, set};
ghost use Rattle.text.specs.Call.{laid};
ghost use Rattle.output.specs.Over.{over};
ghost use Rattle.output.specs.Runs.{Plain, either_byte, TwoPieces};

// Copies the run to the start of `out`, and keeps the rest.
pub fn put_run(src: &[u8], out: &mut [u8])
    requires { length src.now ≤ length out.old }
    ensures { out.new ≡ laid src.now out.old }
{
    // copy_from_slice asks first whether the two overlap: with it an escaped text that is dense takes 3 % more.
    for (k, &b) in src.iter().enumerate() {
        out[k] = b;
    }
}

// Copies a run of at most 16 bytes: by way of a local array, which can overlap with neither. Where the run's length is known when
// this is compiled, it takes one load and one store.
fn put_piece(src: &[u8], out: &mut [u8])
    requires { (length src.now ≤ 16) × (length src.now ≤ length out.old) }
    ensures { out.new ≡ laid src.now out.old }
{
    let n = src.len();
    let mut block = [0u8; 16];
    put_run(src, &mut block);
    put_run(&block[..n], out);
}

// Copies a run of 16 bytes.
pub fn put_block(src: &[u8], out: &mut [u8])
    requires src_len { length src.now ≡ 16 }
    requires in_bounds { 16 ≤ length out.old }
    ensures { out.new ≡ laid src.now out.old }
{
    put_piece(src, out);
}

// A run of `size` bytes up to twice as many: its first and its last `size`, which may overlap, so that there is no loop.
fn put_ends(src: &[u8], size: usize, out: &mut [u8])
    requires { TwoPieces src.now out.old size }
    ensures { out.new ≡ laid src.now out.old }
{
    put_piece(&src[..size], out);
    let at = src.len() - size;
    put_piece(&src[at..], &mut out[at..]);
}

// A run of up to 3 bytes: the count is fixed, so that the loop is unrolled.
fn put_few(src: &[u8], out: &mut [u8])
    requires src_len_bound { length src.now ≤ 3 }
    requires src_in_bounds { length src.now ≤ length out.old }
    ensures { out.new ≡ laid src.now out.old }
{
    let n = src.len();
    for k in 0..3usize {
        if k < n {
            out[k] = src[k];
        }
    }
}

// The same as put_run, but a run of at most 16 bytes takes no loop. The shortest are the most frequent.
fn put_part(src: &[u8], out: &mut [u8])
    requires { length src.now ≤ length out.old }
    ensures { out.new ≡ laid src.now out.old }
{
    let n = src.len();
    if n < 4 {
        put_few(src, out);
        return;
    }
    if n < 8 {
        put_ends(src, 4, out);
        return;
    }
    if n <= 16 {
        put_ends(src, 8, out);
        return;
    }
    put_run(src, out);
}

// As much of the run as there is room for.
pub fn put_over(src: &[u8], out: &mut [u8])
    ensures { out.new ≡ over src.now out.old }
{
    let n = src.len().min(out.len());
    put_part(&src[..n], out);
}

// One byte at a place, where the output reaches it.
pub fn put_byte(b: u8, at: usize, out: &mut [u8])
    ensures { out.new ≡ set out.old at b }
{
    if at < out.len() {
        out[at] = b;
    }
}

// Is one of the `size` bytes from i on a or b?
pub fn any_of(text: &[u8], i: usize, size: usize, a: u8, b: u8) -> bool
    requires { i + size ≤ length text.now }
    ensures { result ≡ false → Plain (either_byte a b) text.now i (i + size) }
{
    let mut hit = false;
    for &c in &text[i..i + size] {
        hit |= (c == a) | (c == b);
    }
    hit
}
