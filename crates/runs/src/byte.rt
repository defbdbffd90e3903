// The search for one byte: near ones are looked for byte by byte, far ones by blocks that run on vectors. Every search is proved to find
// what `RunEnd` over `byte_stop` says (specs/RunEnds.antt).
ghost use Rattle.std.specs.Prelude.{◌≡◌, false, ◌+◌, ◌≤◌, ◌<◌, length, IfSome, IfNone};
ghost use Rattle.output.specs.Runs.{Plain};
ghost use Rattle.runs.specs.RunEnds.{RunEnd, byte_stop};

// Is one of the `size` bytes from i on `b`?
pub fn any_byte(text: &[u8], i: usize, size: usize, b: u8) -> bool
    requires { i + size ≤ length text.now }
    ensures { result ≡ false → Plain (byte_stop b) text.now i (i + size) }
{
    output::any_of(text, i, size, b, b)
}

// Passes blocks of N bytes that have no `b`.
pub fn blocks_without<const N: usize>(text: &[u8], from: usize, b: u8) -> usize
    requires { (from ≤ length text.now) × (1 ≤ N) }
    ensures { Plain (byte_stop b) text.now from result }
{
    // By hand: the answer is a place, which chunks_exact does not count.
    let mut i = from;
    while N <= text.len() - i {
        if any_byte(text, i, N, b) {
            return i;
        }
        i += N;
    }
    i
}

// The next `b` among the N bytes from `from` on.
pub fn near_byte<const N: usize>(text: &[u8], from: usize, b: u8) -> Option<usize>
    requires { from + N ≤ length text.now }
    ensures found { IfSome result (λ e. RunEnd (byte_stop b) text.now from e × (e < from + N)) }
    ensures none { IfNone result (Plain (byte_stop b) text.now from (from + N)) }
{
    for k in 0..N {
        if text[from + k] == b {
            return Some(from + k);
        }
    }
    None
}

// The next `b` from `from` on, or the text's end, byte by byte.
pub fn byte_end(text: &[u8], from: usize, b: u8) -> usize
    requires { from ≤ length text.now }
    ensures { RunEnd (byte_stop b) text.now from result }
{
    // By hand: with `position`, or a `for`, names of references are found in 2 to 7 % more.
    let mut i = from;
    while i < text.len() {
        if text[i] == b {
            return i;
        }
        i += 1;
    }
    i
}
