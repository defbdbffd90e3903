// [3] S, white space, with the version's line ends, each of which stands for an LF.
ghost use Rattle.std.specs.Prelude.{◌≡◌, ◌≤◌, ◌<◌, length};
ghost use Rattle.table_values.specs.ValueSteps.{White, Spaced};

// The width of the white space character or line end at i, 0 where none is.
fn space_width(text: &[u8], i: usize, newer: bool) -> usize
    requires { i < length text.now }
    ensures { White newer text.now i result }
{
    let b = text[i];
    if (b == b' ') | (b == b'\t') {
        return 1;
    }
    eols::eol_width(text, i, newer)
}

// Where the white space from `from` on ends. (By hand, as a turn goes on by a line end's width; `eol_width` says 0 where none starts.)
pub fn space_end(text: &[u8], from: usize, newer: bool) -> usize
    requires { from ≤ length text.now }
    ensures { Spaced newer text.now from result }
{
    let mut i = from;
    // By hand: a blank has one to three bytes.
    while i < text.len() {
        let width = space_width(text, i, newer);
        if width == 0 {
            return i;
        }
        i += width;
    }
    i
}
