// The pieces for CDATA sections, with the cursor that is lent.
use crate::answers::{Answer, Failure};
use crate::arguments::{bytes, expect_fields, numbers};
use utils::Cursor;

// cdata_next TEXT OFFSET FINISHED = NUMBER FIRST SECOND OFFSET FINISHED
pub fn replay_cdata(line: &[u8]) -> Result<(), Failure> {
    expect_fields(line, 10)?;
    let mut text = [0; 2048];
    let text = bytes(line, 1, &mut text)?;
    let [offset, finished] = numbers::<2>(line, 2)?;
    let mut cursor = Cursor { offset, finished };
    let answer = Answer::of(|words| govlezna::govlezna_cdata_next(text, &mut cursor, words));
    let [offset, finished] = numbers::<2>(line, 8)?;
    answer.compare(line, 4)?;
    answer.passes_if(cursor.offset == offset && cursor.finished == finished)
}
