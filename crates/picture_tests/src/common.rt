// What must hold of bytes that are a picture, and of bytes that are none. Readings are given as points with their values, and bytes as docs/PICTURE.md
// spells them.
use picture::{
    Failed, Reader, Reading, Refused, ask, dingaruho_ask, dingaruho_refused_at, encode, read,
    read_head,
};
use std::alloc::Global;
use std::process::Abort;
use std::test::Fail;

// The bytes that a text spells: two digits each, with blanks between them.
pub fn spelled(heap: Global, text: &str) -> Result<Vec<u8>, Fail> {
    let mut bytes = Vec::new(heap);
    for word in text.split(' ') {
        bytes.push(u8::from_str_radix(word, 16)?)?;
    }
    Ok(bytes)
}

// The readings of some points, with their values.
fn readings_of(heap: Global, pairs: &[(u16, i32)]) -> Result<Vec<Reading>, Fail> {
    let mut readings = Vec::new(heap);
    for (point, value) in pairs {
        readings.push(Reading {
            point: *point,
            value: *value,
        })?;
    }
    Ok(readings)
}

// The picture of some readings.
pub fn encoded(heap: Global, handle: u32, pairs: &[(u16, i32)]) -> Result<Vec<u8>, Fail> {
    let readings = readings_of(heap, pairs)?;
    encode(heap, handle, readings.as_slice()).map_err(|_| Fail::new("not encoded"))
}

// `encode` stops at the reading that has this index, with the refusal that has this number.
pub fn stops(
    rt: &impl Abort,
    heap: Global,
    pairs: &[(u16, i32)],
    index: usize,
    number: u8,
) -> Result<(), Fail> {
    let readings = readings_of(heap, pairs)?;
    let Err(Failed::Refused(e)) = encode(heap, 0, readings.as_slice()) else {
        return Err(Fail::new("encoded, or no memory"));
    };
    assert_eq!(rt; (e.index, e.refusal.number()), (index, number));
    Ok(())
}

// The number and the bit place of a refusal, if the answer is one.
fn refusal_of<T: Drop>(answer: Result<T, Refused>) -> Option<(u8, usize)> {
    answer.err().map(|e| (e.refusal.number(), e.place))
}

// The refusal that a reader comes to, if it does not end with *none*.
fn end_of(reader: &mut Reader<'_>) -> Option<(u8, usize)> {
    for _ in 0..4097 {
        match reader.next_record() {
            Ok(Some(_)) => (),
            last => return refusal_of(last),
        }
    }
    None
}

// What `read` says: the handle, the width and the readings.
fn said_by(heap: Global, bytes: &[u8]) -> Result<(u32, u32, Vec<(u16, i32)>), Fail> {
    let Ok(said) = read(heap, bytes) else {
        return Err(Fail::new("not read"));
    };
    let mut pairs = Vec::new(heap);
    for reading in said.readings.iter() {
        pairs.push((reading.point, reading.value))?;
    }
    Ok((said.handle, said.width, pairs))
}

// The bytes are the picture of the handle, the width and the readings, to all calls that read and to `encode`; `case` names them where they are not.
pub fn is_picture(
    rt: &impl Abort,
    heap: Global,
    case: &str,
    bytes: &[u8],
    handle: u32,
    width: u32,
    pairs: &[(u16, i32)],
) -> Result<(), Fail> {
    assert_eq!(rt; refusal_of(picture::check(bytes)), None, "{case}");
    assert_eq!(rt; dingaruho_refused_at(bytes), -1, "{case}");
    let Ok(head) = read_head(bytes) else {
        return Err(Fail::new("no head"));
    };
    assert_eq!(rt; (head.handle, head.width), (handle, width), "{case}");
    assert_eq!(rt; usize::from(head.count), pairs.len(), "{case}");
    let said = said_by(heap, bytes)?;
    assert_eq!(rt; (said.0, said.1), (handle, width), "{case}");
    assert_eq!(rt; said.2.as_slice(), pairs, "{case}");
    for (point, value) in pairs {
        assert_eq!(rt; ask(bytes, *point).ok(), Some(Some(*value)), "{case}");
        assert_eq!(rt; dingaruho_ask(bytes, *point), i64::from(*value), "{case}");
    }
    assert_eq!(rt; encoded(heap, handle, pairs)?.as_slice(), bytes, "{case}");
    Ok(())
}

// The bytes are no picture, to all calls that read; a reader that is asked again answers the same. `case` names the bytes where one does not.
pub fn is_refused(
    rt: &impl Abort,
    heap: Global,
    case: &str,
    bytes: &[u8],
    number: u8,
    place: usize,
) -> Result<(), Fail> {
    let refusal = Some((number, place));
    assert_eq!(rt; refusal_of(picture::check(bytes)), refusal, "{case}");
    assert_eq!(rt;
        refusal_of(read_head(bytes)),
        if number < 20 { refusal } else { None },
        "{case}"
    );
    assert_eq!(rt; refusal_of(ask(bytes, 5)), refusal, "{case}");
    assert_eq!(rt;
        dingaruho_ask(bytes, 5),
        i64::from(number) + 4_294_967_296,
        "{case}"
    );
    assert_eq!(rt;
        Some(dingaruho_refused_at(bytes)),
        i64::try_from(place).ok(),
        "{case}"
    );
    let Err(Failed::Refused(e)) = read(heap, bytes) else {
        return Err(Fail::new("read, or no memory"));
    };
    assert_eq!(rt; Some((e.refusal.number(), e.place)), refusal, "{case}");
    let mut reader = Reader::new(bytes);
    assert_eq!(rt; end_of(&mut reader), refusal, "{case}");
    assert_eq!(rt; end_of(&mut reader), refusal, "{case}");
    Ok(())
}
