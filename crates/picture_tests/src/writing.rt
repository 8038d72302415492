// The writer: what is refused, in which order, and that a state that was handed back goes on.
use crate::common::{encoded, is_picture, stops};
use crate::stages::Call::*;
use crate::stages::{Step, runs};
use std::alloc::Global;
use std::test::Fail;

const UNTOUCHED: &str = "AA AA AA AA AA AA AA AA AA AA AA AA AA AA AA AA";

// Every refusal but 12. Once the reading is in, the first add could be refused as 13, 11, 14 or 15, and each add behind it for one reason less.
static ONE_READING: [Step; 17] = [
    (Measure(7, 230), None),
    (Turn(9), Some(13)),
    (Turn(0), Some(13)),
    (Measure(7, 0), Some(11)),
    (Turn(10), None),
    (Add(9, 7, 230), Some(13)),
    (Seal(9), Some(13)),
    (Seal(10), Some(16)),
    (Add(10, 7, 256), Some(14)),
    (Add(10, 7, -257), Some(14)),
    (Add(10, 7, 230), None),
    (Add(9, 7, 256), Some(13)),
    (Add(10, 7, 256), Some(11)),
    (Add(10, 8, 256), Some(14)),
    (Add(10, 8, 255), Some(15)),
    (Seal(9), Some(13)),
    (Seal(10), None),
];

static NO_READING: [Step; 7] = [
    (Turn(6), Some(13)),
    (Turn(7), None),
    (Add(6, 0, 0), Some(13)),
    (Add(7, 0, 0), Some(14)),
    (Add(7, 65_535, -1), Some(14)),
    (Seal(6), Some(13)),
    (Seal(7), None),
];

// Other readings than those measured, of the same width; the buffer is longer than the picture.
static OTHER_READINGS: [Step; 7] = [
    (Measure(0, 1), None),
    (Measure(1, 0), None),
    (Turn(16), None),
    (Add(16, 5, -1), None),
    (Seal(16), Some(16)),
    (Add(16, 6, -2), None),
    (Seal(16), None),
];

// Other readings, of which none needs the width.
static NARROW_READINGS: [Step; 8] = [
    (Measure(0, 1), None),
    (Measure(1, 0), None),
    (Turn(12), None),
    (Add(12, 3, 0), None),
    (Add(12, 4, -1), None),
    (Seal(11), Some(13)),
    (Seal(12), Some(16)),
    (Add(12, 5, 1), Some(15)),
];

#[test]
fn scripts_of_calls(rt: HostRuntime) -> Result<(), Fail> {
    let heap = rt.alloc();
    let text = "00 00 00 01 00 01 24 00 1D CC AA AA AA AA AA AA";
    runs(&rt, heap, "one reading", 1, &ONE_READING, text, Some(10))?;
    let text = "FF FF FF FF 00 00 00 AA AA AA AA AA AA AA AA AA";
    runs(
        &rt,
        heap,
        "no reading",
        4_294_967_295,
        &NO_READING,
        text,
        Some(7),
    )?;
    // width 2: point 5 and -1 as 000101 11, point 6 and -2 as 00000110 10
    let text = "00 00 00 00 00 02 08 00 17 00 06 80 AA AA AA AA";
    runs(
        &rt,
        heap,
        "other readings",
        0,
        &OTHER_READINGS,
        text,
        Some(12),
    )?;
    // width 2: point 3 and 0 as 000011 00, point 4 and -1 as 00000100 11
    let text = "00 00 00 00 00 02 08 00 0C 00 04 C0 AA AA AA AA";
    runs(
        &rt,
        heap,
        "narrow readings",
        0,
        &NARROW_READINGS,
        text,
        None,
    )
}

// Two points, and the buffer once the first is added with width 1.
static NOT_RISING: [(u16, u16, &str); 6] = [
    (0, 0, "00 00 00 00 00 02 04 00 00 00 00 AA AA AA AA AA"),
    (1, 0, "00 00 00 00 00 02 04 00 04 00 00 AA AA AA AA AA"),
    (7, 7, "00 00 00 00 00 02 04 00 1C 00 00 AA AA AA AA AA"),
    (256, 255, "00 00 00 00 00 02 04 04 00 00 00 AA AA AA AA AA"),
    (65_535, 0, "00 00 00 00 00 02 07 FF FC 00 00 AA AA AA AA AA"),
    (
        65_535,
        65_535,
        "00 00 00 00 00 02 07 FF FC 00 00 AA AA AA AA AA",
    ),
];

#[test]
fn points_that_do_not_rise(rt: HostRuntime) -> Result<(), Fail> {
    for (first, second, text) in &NOT_RISING {
        let first = *first;
        let second = *second;
        stops(&rt, rt.alloc(), &[(first, 0), (second, 0)], 1, 11)?;
        let measuring = [(Measure(first, 0), None), (Measure(second, 0), Some(11))];
        runs(
            &rt,
            rt.alloc(),
            "measured",
            0,
            &measuring,
            UNTOUCHED,
            Some(9),
        )?;
        let adding = [
            (Measure(0, 0), None),
            (Measure(1, 0), None),
            (Turn(11), None),
            (Add(11, first, 0), None),
            (Add(11, second, 0), Some(11)),
        ];
        runs(&rt, rt.alloc(), text, 0, &adding, text, None)?;
    }
    Ok(())
}

// Readings of the points below `count`, all with one value.
fn many(heap: Global, count: u16, value: i32) -> Result<Vec<(u16, i32)>, Fail> {
    let mut pairs = Vec::new(heap);
    for point in 0..count {
        pairs.push((point, value))?;
    }
    Ok(pairs)
}

// The value of all readings, the width that it needs, and the bytes of 4,096 of them: 54 bits and 4,096 times 17 or 48, and 7 to round up.
static LARGEST: [(i32, u32, usize); 2] = [(-1, 1, 8711), (-2_147_483_648, 32, 24_583)];

#[test]
fn as_many_readings_as_there_may_be(rt: HostRuntime) -> Result<(), Fail> {
    let heap = rt.alloc();
    for (value, width, size) in &LARGEST {
        let mut pairs = many(heap, 4096, *value)?;
        let bytes = encoded(heap, 3, pairs.as_slice())?;
        assert_eq!(rt; bytes.len(), *size);
        is_picture(
            &rt,
            heap,
            "the largest",
            bytes.as_slice(),
            3,
            *width,
            pairs.as_slice(),
        )?;
        pairs.push((4096, *value))?;
        stops(&rt, heap, pairs.as_slice(), 4096, 12)?;
    }
    Ok(())
}

// Behind 4,096 readings a point that is not above is refused first. The state goes on, and needs more bytes than there are.
static BEHIND_ALL: [Step; 4] = [
    (Measure(4096, -1), Some(12)),
    (Measure(4095, -1), Some(11)),
    (Measure(65_535, -1), Some(12)),
    (Turn(16), Some(13)),
];

#[test]
fn one_reading_too_many(rt: HostRuntime) -> Result<(), Fail> {
    let mut script = Vec::new(rt.alloc());
    for point in 0..4096u16 {
        script.push((Measure(point, -1), None))?;
    }
    script.extend_from_slice(&BEHIND_ALL)?;
    runs(
        &rt,
        rt.alloc(),
        "one too many",
        3,
        script.as_slice(),
        UNTOUCHED,
        Some(8711),
    )
}
