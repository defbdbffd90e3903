// Several bytes of a text as one number, which is read by one load.
ghost use Rattle.std.specs.Prelude.{◌≡◌, ◌+◌, ◌<◌, ◌≤◌, length};
ghost use Rattle.text.specs.Blocks.{word_at};

fn wide(b: u8) -> u64
    ensures { (result ≡ b) × (result < 0x100) }
{
    b as u64
}

// The eight bytes from i on as one number. Written as this sum it is compiled to one load.
pub fn word(text: &[u8], i: usize) -> u64
    requires { i + 8 ≤ length text.now }
    ensures { result ≡ word_at text.now i }
{
    wide(text[i])
        + wide(text[i + 1]) * 0x100
        + wide(text[i + 2]) * 0x10000
        + wide(text[i + 3]) * 0x1000000
        + wide(text[i + 4]) * 0x100000000
        + wide(text[i + 5]) * 0x10000000000
        + wide(text[i + 6]) * 0x1000000000000
        + wide(text[i + 7]) * 0x100000000000000
}
