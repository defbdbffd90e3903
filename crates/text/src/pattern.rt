// Does the text go on with these bytes at a place? It may be over there.
ghost use Rattle.std.specs.Prelude.{◌≡◌, [], ◌∷◌, ◌≤◌, length, drop};
ghost use Rattle.text.specs.Bytes.{begins};

pub fn byte_at(text: &[u8], i: usize, b: u8) -> bool
    ensures { result ≡ begins (b ∷ []) (drop i text.now) }
{
    if text.len() <= i {
        return false;
    }
    text[i] == b
}

pub fn two_at(text: &[u8], i: usize, a: u8, b: u8) -> bool
    requires { i ≤ length text.now }
    ensures { result ≡ begins (a ∷ b ∷ []) (drop i text.now) }
{
    if byte_at(text, i, a) {
        return byte_at(text, i + 1, b);
    }
    false
}
