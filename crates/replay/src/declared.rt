// Texts of declarations. The table is written, so list and pool are compared as outputs are.
use crate::answers::{Answer, Failure, UNTOUCHED};
use crate::arguments::{byte, bytes, expect_fields, numbers, room};

// read_declarations TEXT VERSION ROOM ROOM = NUMBER FIRST SECOND LIST POOL, with the lengths of the lent list and pool
// as rooms
pub fn replay_declarations(line: &[u8]) -> Result<(), Failure> {
    expect_fields(line, 11)?;
    let mut text = [0; 2048];
    let text = bytes(line, 1, &mut text)?;
    let [version, list_room, pool_room] = numbers::<3>(line, 2)?;
    let (version, list_room, pool_room) = (byte(version)?, room(list_room)?, room(pool_room)?);
    let mut list = [UNTOUCHED; 2048];
    let mut pool = [UNTOUCHED; 2048];
    let answer = Answer::of(|words| {
        govlezna::govlezna_read_declarations(
            text,
            version,
            &mut list[..list_room],
            &mut pool[..pool_room],
            words,
        )
    });
    answer.compare(line, 5)?;
    answer.compare_lent(line, 9, &list)?;
    answer.compare_lent(line, 10, &pool)
}
