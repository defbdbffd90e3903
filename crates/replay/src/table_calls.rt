// The calls with an entity table.
use crate::answers::{Answer, Failure, UNTOUCHED, replay_output};
use crate::arguments::{byte, bytes, expect_fields, number, numbers, room};

// check_table LIST POOL = NUMBER FIRST SECOND
pub fn replay_check_table(line: &[u8]) -> Result<(), Failure> {
    expect_fields(line, 7)?;
    let mut list = [0; 2048];
    let mut pool = [0; 2048];
    let list = bytes(line, 1, &mut list)?;
    let pool = bytes(line, 2, &mut pool)?;
    Answer::of(|words| govlezna::govlezna_check_table(list, pool, words)).compare(line, 3)
}

// unescape TEXT LIST POOL ROOM = NUMBER FIRST SECOND OUTPUT
pub fn replay_unescape(line: &[u8]) -> Result<(), Failure> {
    expect_fields(line, 10)?;
    let mut text = [0; 2048];
    let mut list = [0; 2048];
    let mut pool = [0; 2048];
    let text = bytes(line, 1, &mut text)?;
    let list = bytes(line, 2, &mut list)?;
    let pool = bytes(line, 3, &mut pool)?;
    let length = number(line, 4)?;
    replay_output(line, 5, room(length)?, |out, words| {
        govlezna::govlezna_unescape(text, list, pool, out, words)
    })
}

// least_depth TEXT VERSION LIMIT LIST POOL = NUMBER FIRST SECOND
pub fn replay_least_depth(line: &[u8]) -> Result<(), Failure> {
    expect_fields(line, 10)?;
    let mut text = [0; 2048];
    let mut list = [0; 2048];
    let mut pool = [0; 2048];
    let text = bytes(line, 1, &mut text)?;
    let [version, limit] = numbers::<2>(line, 2)?;
    let version = byte(version)?;
    let list = bytes(line, 4, &mut list)?;
    let pool = bytes(line, 5, &mut pool)?;
    Answer::of(|words| govlezna::govlezna_least_depth(
        text, version, limit, list, pool, words,
    )).compare(line, 6)
}

// normalize_attribute_value TEXT VERSION DEPTH LIMIT LIST POOL ROOM = NUMBER FIRST SECOND OUTPUT, and so
// the strict call
pub fn replay_normalize<F: Fn(&[u8], u8, u64, u64, &[u8], &[u8], &mut [u8], &mut [u64; 2]) -> u32>(
    line: &[u8],
    call: F,
) -> Result<(), Failure>
    requires { F.IsAlwaysCallable call }
{
    expect_fields(line, 13)?;
    let mut text = [0; 2048];
    let mut list = [0; 2048];
    let mut pool = [0; 2048];
    let text = bytes(line, 1, &mut text)?;
    let [version, depth, limit] = numbers::<3>(line, 2)?;
    let version = byte(version)?;
    let list = bytes(line, 5, &mut list)?;
    let pool = bytes(line, 6, &mut pool)?;
    let length = number(line, 7)?;
    replay_output(line, 8, room(length)?, |out, words| {
        call(text, version, depth, limit, list, pool, out, words)
    })
}

// canonical_form TEXT VERSION DEPTH LIMIT LIST POOL SCRATCH ROOM = NUMBER FIRST SECOND VALUE OUTPUT, and so the
// strict call and normalize_nmtokens. VALUE is what is written at the scratch's start: of a canonical form the
// character in hand.
pub fn replay_form<
    F: Fn(&[u8], u8, u64, u64, &[u8], &[u8], &mut [u8], &mut [u8], &mut [u64; 2]) -> u32,
>(line: &[u8], call: F) -> Result<(), Failure>
    requires { F.IsAlwaysCallable call }
{
    expect_fields(line, 15)?;
    let mut text = [0; 2048];
    let mut list = [0; 2048];
    let mut pool = [0; 2048];
    let text = bytes(line, 1, &mut text)?;
    let [version, depth, limit] = numbers::<3>(line, 2)?;
    let version = byte(version)?;
    let list = bytes(line, 5, &mut list)?;
    let pool = bytes(line, 6, &mut pool)?;
    let [scratch_room, out_room] = numbers::<2>(line, 7)?;
    let (scratch_room, out_room) = (room(scratch_room)?, room(out_room)?);
    let mut scratch = [UNTOUCHED; 2048];
    let mut out = [UNTOUCHED; 2048];
    let answer = Answer::of(|words| {
        call(
            text,
            version,
            depth,
            limit,
            list,
            pool,
            &mut scratch[..scratch_room],
            &mut out[..out_room],
            words,
        )
    });
    answer.compare(line, 9)?;
    answer.compare_lent(line, 13, &scratch)?;
    answer.compare_lent(line, 14, &out)
}
