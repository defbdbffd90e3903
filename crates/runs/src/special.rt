// The search for U+0085 and U+2028, which the canonical form under XML 1.1 has references for. A run ends at a character here, not at a
// byte: a block's bytes are tested side by side, each with the two after it, so that the loop runs on vectors. Every search is proved to
// pass what `Common` says (specs/Specials.antt).
ghost use Rattle.std.specs.Prelude.{◌≡◌, false, ◌+◌, ◌≤◌, length, drop};
ghost use Rattle.text.specs.Version.{xml11};
ghost use Rattle.runs.specs.Specials.{special, Common};

// Does U+0085 or U+2028 stand at i? Without branches, so that the block loop runs on vectors.
fn special_at(value: &[u8], i: usize) -> bool
    requires { i + 3 ≤ length value.now }
    ensures { result ≡ false → special xml11 (drop i value.now) ≡ 0 }
{
    ((value[i] == 0xc2) & (value[i + 1] == 0x85))
        | ((value[i] == 0xe2) & (value[i + 1] == 0x80) & (value[i + 2] == 0xa8))
}

// At one of the 32 bytes from i on?
fn any_special(value: &[u8], i: usize) -> bool
    requires { i + 34 ≤ length value.now }
    ensures { result ≡ false → Common xml11 value.now i (i + 32) }
{
    // By index: each byte is asked with the two after it.
    let mut hit = false;
    for k in 0..32usize {
        hit |= special_at(value, i + k);
    }
    hit
}

// Passes blocks in which none stands.
pub fn skip_common(value: &[u8], from: usize) -> usize
    requires { from ≤ length value.now }
    ensures { Common xml11 value.now from result }
{
    // By hand: the answer is a place, and each block is asked with the two bytes after it.
    let mut i = from;
    while 34 <= value.len() - i {
        if any_special(value, i) {
            return i;
        }
        i += 32;
    }
    i
}
