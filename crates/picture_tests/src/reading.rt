// Bytes made by hand. Behind 4 bytes of handle and 2 of count, the width has the high 6 bits of a byte: 04 is width 1, 08 width 2, 24 width 9,
// 80 width 32, 84 width 33, FC width 63. The low 2 bits of that byte are 54 and 55: the first two of the first record, or else padding.
use crate::common::{is_picture, is_refused, spelled};
use picture::{Reader, Reading, ask, check, dingaruho_ask, encode, read};
use std::test::Fail;

// Bytes, and the number and the bit place of their refusal.
static REFUSED: [(&str, u8, usize); 30] = [
    // a count of 4,097 or 65,535: first, even if the width is 33 or 63
    ("00 00 00 00 10 01 04", 18, 32),
    ("00 00 00 00 10 01 84", 18, 32),
    ("00 00 00 00 FF FF FF", 18, 32),
    // no record, and width 1 or 63: before the length, which is 8 for 7 in the second
    ("00 00 00 00 00 00 04", 18, 48),
    ("00 00 00 00 00 00 FC 00", 18, 48),
    // 1 or 4,096 records, and width 0, 33 or 63: before the length
    ("00 00 00 00 00 01 00", 18, 48),
    ("00 00 00 00 10 00 00", 18, 48),
    ("00 00 00 00 00 01 84", 18, 48),
    ("00 00 00 00 00 01 FC", 18, 48),
    // 8 bytes for 7; 9 and 11 for 10; 7 for 13 and for 24,583
    ("00 00 00 00 00 00 00 00", 19, 54),
    ("00 00 00 01 00 01 24 00 1D", 19, 54),
    ("00 00 00 01 00 01 24 00 1D CD FF", 19, 54),
    ("00 00 00 00 00 01 80", 19, 54),
    ("00 00 00 00 10 00 80", 19, 54),
    // Width 1, so that the second record begins at 54 + 17 and the third at 71 + 17. Points 5 5, then 5 4.
    ("00 00 00 00 00 02 04 00 14 00 0A", 20, 71),
    ("00 00 00 00 00 02 04 00 14 00 08", 20, 71),
    // points 5 6 6, then 5 5 5, then 5 4 6: the first record that does not rise counts
    ("00 00 00 00 00 03 04 00 14 00 0C 00 06 00", 20, 88),
    ("00 00 00 00 00 03 04 00 14 00 0A 00 05 00", 20, 71),
    ("00 00 00 00 00 03 04 00 14 00 08 00 06 00", 20, 71),
    // Width 2 with values that need 1, padding from 90 to 95 set. Points 5 5: 20 before 21. Points 5 6: 21 before 22.
    ("00 00 00 00 00 02 08 00 14 00 05 3F", 20, 72),
    ("00 00 00 00 00 02 08 00 14 00 06 3F", 21, 48),
    // one record: 0 in width 2, -1 in width 2, 0 in width 32
    ("00 00 00 00 00 01 08 00 00", 21, 48),
    ("00 00 00 00 00 01 08 00 03", 21, 48),
    ("00 00 00 00 00 01 80 00 00 00 00 00 00", 21, 48),
    // the second value is 1, which needs width 2; of the padding all bits are set, then 93 and 94, then 95
    ("00 00 00 00 00 02 08 00 14 00 06 7F", 22, 90),
    ("00 00 00 00 00 02 08 00 14 00 06 46", 22, 93),
    ("00 00 00 00 00 02 08 00 14 00 06 41", 22, 95),
    // no record, where 54 and 55 are padding; then the worked picture, where 79 is
    ("00 00 00 00 00 00 03", 22, 54),
    ("00 00 00 00 00 00 01", 22, 55),
    ("00 00 00 01 00 01 24 00 1D CD", 22, 79),
];

#[test]
fn bytes_that_are_refused(rt: HostRuntime) -> Result<(), Fail> {
    let short = [0xFFu8; 7];
    for n in 0..7usize {
        is_refused(&rt, rt.alloc(), "a short one", &short[0..n], 17, 8 * n)?;
    }
    for (text, number, place) in &REFUSED {
        let bytes = spelled(rt.alloc(), text)?;
        is_refused(&rt, rt.alloc(), text, bytes.as_slice(), *number, *place)?;
    }
    Ok(())
}

// A refusal is printed with its number and its place, by the call that checks and by those that need memory.
#[test]
fn refusals_that_are_printed(rt: HostRuntime) -> Result<(), Fail> {
    let heap = rt.alloc();
    let bytes = [0, 0, 0, 0, 0x10, 0x01, 0x04];
    let Err(refused) = check(&bytes) else {
        return Err(Fail::new("a count of 4,097 is accepted"));
    };
    let text = format!(in heap; "{refused}")?;
    assert_eq!(rt; text.as_str(), "refused 18 at bit 32");
    let Err(not_read) = read(heap, &bytes) else {
        return Err(Fail::new("a count of 4,097 is read"));
    };
    let text = format!(in heap; "{not_read}")?;
    assert_eq!(rt; text.as_str(), "refused 18 at bit 32");
    let twice = [
        Reading { point: 5, value: 0 },
        Reading { point: 5, value: 0 },
    ];
    let Err(not_encoded) = encode(heap, 0, &twice) else {
        return Err(Fail::new("a point is encoded twice"));
    };
    let text = format!(in heap; "{not_encoded}")?;
    assert_eq!(rt; text.as_str(), "refused 11 at reading 1");
    Ok(())
}

// Bytes, and the handle, the width and the readings that they say.
static PICTURES: [(&str, u32, u32, &[(u16, i32)]); 13] = [
    // the worked picture, and no record
    ("00 00 00 01 00 01 24 00 1D CC", 1, 9, &[(7, 230)]),
    ("00 00 00 00 00 00 00", 0, 0, &[]),
    ("DE AD BE EF 00 00 00", 0xDEAD_BEEF, 0, &[]),
    // width 1, where the one bit is the sign
    ("00 00 00 00 00 01 04 00 00", 0, 1, &[(0, 0)]),
    ("00 00 00 00 00 01 07 FF FE", 0, 1, &[(65_535, -1)]),
    // width 2
    ("00 00 00 00 00 01 08 00 01", 0, 2, &[(0, 1)]),
    ("00 00 00 00 00 01 08 00 02", 0, 2, &[(0, -2)]),
    // widths 8 and 32
    ("00 00 00 00 00 01 20 00 01 FC", 0, 8, &[(0, 127)]),
    ("00 00 00 00 00 01 20 00 02 00", 0, 8, &[(0, -128)]),
    (
        "00 00 00 00 00 01 83 FF FD FF FF FF FC",
        0,
        32,
        &[(65_535, 2_147_483_647)],
    ),
    (
        "00 00 00 00 00 01 83 FF FE 00 00 00 00",
        0,
        32,
        &[(65_535, -2_147_483_648)],
    ),
    // two records
    ("00 00 00 00 00 02 04 00 14 00 0C", 0, 1, &[(5, 0), (6, 0)]),
    (
        "00 00 00 00 00 02 08 00 14 00 06 40",
        0,
        2,
        &[(5, 0), (6, 1)],
    ),
];

#[test]
fn pictures_that_are_read(rt: HostRuntime) -> Result<(), Fail> {
    for (text, handle, width, pairs) in &PICTURES {
        let bytes = spelled(rt.alloc(), text)?;
        is_picture(
            &rt,
            rt.alloc(),
            text,
            bytes.as_slice(),
            *handle,
            *width,
            pairs,
        )?;
    }
    Ok(())
}

#[test]
fn record_of_the_worked_picture(rt: HostRuntime) -> Result<(), Fail> {
    let bytes = [0, 0, 0, 1, 0, 1, 0x24, 0, 0x1D, 0xCC];
    assert_eq!(rt; dingaruho_ask(&bytes, 7), 230);
    assert_eq!(rt; dingaruho_ask(&bytes, 8), 4_294_967_296);
    assert_eq!(rt; ask(&bytes, 8).ok(), Some(None));
    let mut reader = Reader::new(&bytes);
    let Ok(Some(record)) = reader.next_record() else {
        return Err(Fail::new("no record"));
    };
    // its bits are 54 to 78, in bytes 6 to 9, and it begins at bit 6 of byte 6
    assert_eq!(rt; record.bytes, [0x24u8, 0, 0x1D, 0xCC].as_slice());
    assert_eq!(rt; record.bit, 6);
    assert_eq!(rt; (record.reading.point, record.reading.value), (7, 230));
    for _ in 0..2 {
        let Ok(None) = reader.next_record() else {
            return Err(Fail::new("not at the end"));
        };
    }
    Ok(())
}
