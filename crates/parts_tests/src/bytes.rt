// The bytes of packed flash, worked out by hand. A record is 16 bits of point, 32 of number, 1 that is set if the point was removed, and 32 of value
// in two's complement: 81 in all. The second begins at bit 1 of byte 10, and the third at bit 2 of byte 20. Bits behind the records stay as they were.
use crate::calls::Answer::*;
use crate::calls::Call::*;
use crate::calls::{Step, runs};
use parts::PackedFlash;
use std::alloc::Global;
use std::process::Abort;
use std::test::Fail;

const TOP: u32 = 4_294_967_295;

// What every byte is at first, calls, and what the bytes are then.
static ONE_RECORD: [(u8, &[Step], &str); 12] = [
    // no room, and no number: nothing is written
    (
        0xFF,
        &[(Take(7, 1, Some(230)), Full)],
        "FF FF FF FF FF FF FF FF FF FF",
    ),
    (
        0xFF,
        &[(Take(7, 0, Some(230)), OutOfPlace)],
        "FF FF FF FF FF FF FF FF FF FF FF",
    ),
    // 0, then 230 as 24 times 0 and 11100110, of which the last bit is the first of byte 10; behind it 7 bits stay
    (
        0xFF,
        &[(Take(7, 1, Some(230)), Done)],
        "00 07 00 00 00 01 00 00 00 73 7F",
    ),
    (
        0x00,
        &[(Take(7, 1, Some(230)), Done)],
        "00 07 00 00 00 01 00 00 00 73 00",
    ),
    // the same with a byte to spare: of A5, which is 10100101, 7 bits stay
    (
        0xA5,
        &[(Take(7, 1, Some(230)), Done)],
        "00 07 00 00 00 01 00 00 00 73 25 A5",
    ),
    // removed: 1, then 32 times 0
    (
        0xFF,
        &[(Take(7, 1, None), Done)],
        "00 07 00 00 00 01 80 00 00 00 7F",
    ),
    (
        0x00,
        &[(Take(7, 1, None), Done)],
        "00 07 00 00 00 01 80 00 00 00 00",
    ),
    // -1: 0, then 32 times 1
    (
        0xFF,
        &[(Take(7, 1, Some(-1)), Done)],
        "00 07 00 00 00 01 7F FF FF FF FF",
    ),
    (
        0x00,
        &[(Take(7, 1, Some(-1)), Done)],
        "00 07 00 00 00 01 7F FF FF FF 80",
    ),
    // the least value: 0, then 1 and 31 times 0; the greatest: 0, then 0 and 31 times 1
    (
        0xFF,
        &[(Take(65_535, TOP, Some(-2_147_483_648)), Done)],
        "FF FF FF FF FF FF 40 00 00 00 7F",
    ),
    (
        0x00,
        &[(Take(0, 1, Some(2_147_483_647)), Done)],
        "00 00 00 00 00 01 3F FF FF FF 80",
    ),
    // the highest byte first: point 258 is 01 02, and number 16,909,060 is 01 02 03 04
    (
        0xFF,
        &[(Take(258, 16_909_060, Some(0)), Done)],
        "01 02 01 02 03 04 00 00 00 00 7F",
    ),
];

// The second record is written behind the last bit of the first value, and the third behind the last two bits of the second value.
static MORE_RECORDS: [(u8, &[Step], &str); 7] = [
    // 0|0000000 00000100 | 0 and number 2 | 0, 0 and 32 times 1 | 6 bits stay
    (
        0x00,
        &[(Take(7, 1, Some(230)), Done), (Take(8, 2, Some(-1)), Done)],
        "00 07 00 00 00 01 00 00 00 73 00 04 00 00 00 01 3F FF FF FF C0",
    ),
    // the same, between calls that are refused
    (
        0x00,
        &[
            (Take(7, 1, Some(230)), Done),
            (Take(7, 2, Some(0)), OutOfPlace),
            (Take(8, 0, Some(0)), OutOfPlace),
            (Take(8, 2, Some(-1)), Done),
            (Take(9, 1, None), Full),
        ],
        "00 07 00 00 00 01 00 00 00 73 00 04 00 00 00 01 3F FF FF FF C0",
    ),
    // 0|0000000 00000011 | 1 and number 5 | 1, 0 and 230, whose last two bits 10 stand before 6 bits that stay
    (
        0xFF,
        &[(Take(7, 9, None), Done), (Take(7, 5, Some(230)), Done)],
        "00 07 00 00 00 09 80 00 00 00 00 03 80 00 00 02 80 00 00 39 BF",
    ),
    // 0|1111111 11111111 | 1 and number 2 | 0, 0 and 32 times 1; a part that is emptied keeps its bytes
    (
        0x00,
        &[
            (Take(7, 1, Some(230)), Done),
            (Take(65_535, 2, Some(-1)), Done),
            (Clear, Done),
        ],
        "00 07 00 00 00 01 00 00 00 73 7F FF 80 00 00 01 3F FF FF FF C0",
    ),
    // and then takes anew from the first bit on: 80 bits, and the first bit of byte 10, are new
    (
        0x00,
        &[
            (Take(7, 1, Some(230)), Done),
            (Take(65_535, 2, Some(-1)), Done),
            (Clear, Done),
            (Take(0, TOP, Some(-1)), Done),
        ],
        "00 00 FF FF FF FF 7F FF FF FF FF FF 80 00 00 01 3F FF FF FF C0",
    ),
    // second: 0 and point 0 | 0 and number 1 | 1, 0 and 32 times 1; third: 11 and point 65,535 | 11 and number 1 | 01, 1 and 32 times 0 | 5 bits stay
    (
        0xFF,
        &[
            (Take(0, TOP, Some(-2_147_483_648)), Done),
            (Take(0, 1, Some(-1)), Done),
            (Take(65_535, 1, None), Done),
        ],
        "00 00 FF FF FF FF 40 00 00 00 00 00 00 00 00 00 BF FF FF FF FF FF C0 00 00 00 60 00 00 00 1F",
    ),
    // second: 1 and point 1 | 1 and number 1 | 1, 1 and 32 times 0; third: 00 and point 2 | 10 and number 4 | 00, 0 and 31 times 1, 0 | 5 bits stay
    (
        0x00,
        &[
            (Take(1, 2, Some(3)), Done),
            (Take(1, 1, None), Done),
            (Take(2, 4, Some(-2)), Done),
        ],
        "00 01 00 00 00 02 00 00 00 01 80 00 80 00 00 00 C0 00 00 00 00 00 80 00 00 01 1F FF FF FF C0",
    ),
];

// The bytes that a text spells: two digits each, with blanks between them. The tests of the picture have the same; a crate
// for these lines would be no plainer.
fn spelled(heap: Global, text: &str) -> Result<Vec<u8>, Fail> {
    let mut bytes = Vec::new(heap);
    for word in text.split(' ') {
        bytes.push(u8::from_str_radix(word, 16)?)?;
    }
    Ok(bytes)
}

// Makes the calls on a part in as many bytes as the text spells. Then they are those bytes, to the part and to its lender.
fn packs(rt: &impl Abort, heap: Global, fill: u8, script: &[Step], text: &str) -> Result<(), Fail> {
    let expected = spelled(heap, text)?;
    let mut bytes = vec![in heap; fill; expected.len()]?;
    let mut part = PackedFlash::new(bytes.as_mut_slice());
    runs(rt, text, &mut part, &[script]);
    assert_eq!(rt; part.bytes(), expected.as_slice(), "{text}");
    assert_eq!(rt; bytes, expected, "{text}");
    Ok(())
}

#[test]
fn bytes_of_records(rt: HostRuntime) -> Result<(), Fail> {
    for (fill, script, text) in ONE_RECORD.iter().chain(&MORE_RECORDS) {
        packs(&rt, rt.alloc(), *fill, script, text)?;
    }
    Ok(())
}
