// Where a run of bytes that are copied as they stand ends, and copies made while that is searched: a file for each set of stops.
#![tactic(auto)]

ghost use Rattle.std.specs.Prelude.{◌≡◌, ◌≤◌, length};
ghost use Rattle.text.specs.Call.{laid};

pub mod amp;
pub mod byte;
pub mod lines;
pub mod special;

// Copies a run of 32 bytes, by two blocks.
fn put_two_blocks(src: &[u8], out: &mut [u8])
    requires src_len { length src.now ≡ 32 }
    requires in_bounds { 32 ≤ length out.old }
    ensures { out.new ≡ laid src.now out.old }
{
    output::put_block(&src[..16], out);
    output::put_block(&src[16..], &mut out[16..]);
}
