use super::*;
use std::test::*;

mod ample;

#[derive(Clone, Copy, Debug, PartialEq, Eq)]
enum Item<'a> {
    Int8(i8),
    Int16(i16),
    Int32(i32),
    Int64(i64),
    Text(Option<&'a [u8]>),
    Found(Option<&'a [u8]>),
    Count(Option<u32>),
}

// Items of the guide's "Protocol Primitive Types", and their bytes.
const ITEMS: [(Item<'static>, &'static [u8]); 24] = [
    (Item::Int16(1), &[0, 1]),
    (Item::Int16(-1), &[0xff, 0xff]),
    (Item::Int16(32767), &[0x7f, 0xff]),
    (Item::Int16(-32768), &[0x80, 0]),
    (Item::Int32(18), &[0, 0, 0, 18]),
    (Item::Int32(-1), &[0xff, 0xff, 0xff, 0xff]),
    (Item::Int32(104857600), &[0x06, 0x40, 0, 0]),
    (Item::Int32(2147483647), &[0x7f, 0xff, 0xff, 0xff]),
    (Item::Int32(-2147483648), &[0x80, 0, 0, 0]),
    (Item::Int8(5), &[5]),
    (Item::Int8(-1), &[0xff]),
    (Item::Int8(-128), &[0x80]),
    (Item::Int64(1), &[0, 0, 0, 0, 0, 0, 0, 1]),
    (
        Item::Int64(-2),
        &[0xff, 0xff, 0xff, 0xff, 0xff, 0xff, 0xff, 0xfe],
    ),
    (Item::Int64(72623859790382856), &[1, 2, 3, 4, 5, 6, 7, 8]),
    (Item::Text(None), &[0xff, 0xff]),
    (Item::Text(Some(&[])), &[0, 0]),
    (
        Item::Text(Some(b"kafka")),
        &[0, 5, b'k', b'a', b'f', b'k', b'a'],
    ),
    (Item::Found(None), &[0xff, 0xff, 0xff, 0xff]),
    (Item::Found(Some(&[])), &[0, 0, 0, 0]),
    (Item::Found(Some(&[7, 8])), &[0, 0, 0, 2, 7, 8]),
    (Item::Count(None), &[0xff, 0xff, 0xff, 0xff]),
    (Item::Count(Some(0)), &[0, 0, 0, 0]),
    (Item::Count(Some(2147483647)), &[0x7f, 0xff, 0xff, 0xff]),
];

// Bytes that begin with no such item, and whether they are too short for it. Else their length is bad.
const NO_ITEMS: [(Item<'static>, &'static [u8], bool); 16] = [
    (Item::Text(None), &[], true),
    (Item::Text(None), &[0], true),
    (Item::Text(None), &[0, 1], true),
    (Item::Text(None), &[0, 2, 3], true),
    (Item::Text(None), &[0xff, 0xfe], false),
    (Item::Text(None), &[0x80, 0, 1], false),
    (Item::Found(None), &[], true),
    (Item::Found(None), &[0, 0, 0], true),
    (Item::Found(None), &[0, 0, 0, 2, 3], true),
    (Item::Found(None), &[0xff, 0xff, 0xff, 0xfe], false),
    (Item::Found(None), &[0x80, 0, 0, 0, 1], false),
    (Item::Count(None), &[0, 0, 0], true),
    (Item::Count(None), &[0xff, 0xff, 0xff, 0xfe], false),
    (Item::Count(None), &[0x80, 0, 0, 0], false),
    (Item::Int64(0), &[1], true),
    (Item::Int8(0), &[], true),
];

fn put(out: &mut Writer, item: &Item) -> Result<(), PutFault> {
    match item {
        Item::Int8(number) => out.put_i8(*number),
        Item::Int16(number) => out.put_i16(*number),
        Item::Int32(number) => out.put_i32(*number),
        Item::Int64(number) => out.put_i64(*number),
        Item::Text(text) => out.put_string(*text),
        Item::Found(bytes) => out.put_bytes(*bytes),
        Item::Count(count) => out.put_count(*count),
    }
}

// What is read as an item of this one's kind.
fn read<'a>(reader: &mut Reader<'a>, item: &Item) -> Result<Item<'a>, ReadFault> {
    Ok(match item {
        Item::Int8(_) => Item::Int8(reader.i8()?),
        Item::Int16(_) => Item::Int16(reader.i16()?),
        Item::Int32(_) => Item::Int32(reader.i32()?),
        Item::Int64(_) => Item::Int64(reader.i64()?),
        Item::Text(_) => Item::Text(reader.string()?),
        Item::Found(_) => Item::Found(reader.bytes()?),
        Item::Count(_) => Item::Count(reader.count()?),
    })
}

// Each item has its bytes, and all of them are read one behind the other.
#[test]
fn items_are_put_and_read_in_order(rt: HostRuntime) -> Result<(), Fail> {
    let mut all = Writer::new(rt.alloc());
    let mut out = Writer::new(rt.alloc());
    for (item, bytes) in &ITEMS {
        out.clear();
        let answer = put(&mut out, item);
        assert_eq!(rt; (answer, out.as_slice()), (Ok(()), *bytes), "{item:?}");
        all.put_all(*bytes).ok().ok_or("memory")?;
    }
    let bytes = all.finish().ok().ok_or("memory")?;
    let mut reader = Reader::new(bytes.as_slice());
    for (item, _) in &ITEMS {
        assert_eq!(rt; read(&mut reader, item), Ok(*item));
    }
    assert_eq!(rt; reader.left(), 0);
    Ok(())
}

#[test]
fn no_other_item_is_read(rt: HostRuntime) {
    for (item, bytes, is_short) in NO_ITEMS {
        let fault = if is_short {
            ReadFault::Short { at: 0 }
        } else {
            ReadFault::BadLength { at: 0 }
        };
        let found = read(&mut Reader::new(bytes), &item);
        assert_eq!(rt; found, Err(fault), "{item:?} {bytes:?}");
    }
    let mut out = Writer::new(rt.alloc());
    let put = out.put_count(Some(2147483648));
    assert_eq!(rt; put, Err(PutFault::TooLong { length: 2147483648 }));
    assert_eq!(rt; out.len(), 0);
}
