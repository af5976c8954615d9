use st_base::Bytes;
use st_code::{
    CodeFault, Crc, crc32c, mask, push_fixed32, push_fixed64, push_varint, read_fixed32,
    read_fixed64, read_varint, read_varint32, varint_len,
};

// The published vectors of CRC-32C: the digits, 32 zero bytes, 32 bytes of ones, and the bytes from 0 to 31.
static SUMS: [(&[u8], u32); 4] = [
    (b"123456789", 0xE306_9283),
    (&[0; 32], 0x8A91_36AA),
    (&[255; 32], 0x62A8_AB43),
    (
        b"\x00\x01\x02\x03\x04\x05\x06\x07\x08\x09\x0a\x0b\x0c\x0d\x0e\x0f\x10\x11\x12\x13\x14\x15\x16\x17\x18\x19\x1a\x1b\x1c\x1d\x1e\x1f",
        0x46DD_794E,
    ),
];

#[test]
fn sums_are_the_published_ones(rt: HostRuntime) {
    for (bytes, sum) in SUMS.iter() {
        assert!(rt; crc32c(bytes) == *sum, "another sum than {sum}");
    }
}

// The sum of two pieces.
fn sum_of(one: &[u8], other: &[u8]) -> u32 {
    let mut sum = Crc::start();
    sum.update(one);
    sum.update(other);
    sum.finish()
}

#[test]
fn a_sum_is_taken_in_pieces_and_masked(rt: HostRuntime) {
    assert!(rt; sum_of(b"1234", b"56789") == 0xE306_9283);
    assert!(rt; mask(0xE306_9283) == 0xC78A_B0E5);
}

// Bytes, an offset in them, and the varint32 there with the offset after it.
static VARINTS32: [(&[u8], usize, Result<(u32, usize), CodeFault>); 8] = [
    (b"\xb3\x01", 0, Ok((179, 2))),
    (b"\x00\xac\x02", 1, Ok((300, 3))),
    (b"\xb3\x81\x00", 0, Ok((179, 3))),
    (b"\xff\xff\xff\xff\x0f", 0, Ok((0xFFFF_FFFF, 5))),
    (b"\xff\xff\xff\xff\x1f", 0, Err(CodeFault::TooLong)),
    (b"\x80\x80\x80\x80\x80\x00", 0, Err(CodeFault::TooLong)),
    (b"\x80\x80", 0, Err(CodeFault::Short)),
    (b"\x01", 7, Err(CodeFault::Short)),
];

// The same of a varint64.
static VARINTS64: [(&[u8], Result<(u64, usize), CodeFault>); 3] = [
    (
        b"\xff\xff\xff\xff\xff\xff\xff\xff\xff\x01",
        Ok((u64::MAX, 10)),
    ),
    (
        b"\xff\xff\xff\xff\xff\xff\xff\xff\xff\x02",
        Err(CodeFault::TooLong),
    ),
    (
        b"\x80\x80\x80\x80\x80\x80\x80\x80\x80\x80\x00",
        Err(CodeFault::TooLong),
    ),
];

#[test]
fn varints_are_read(rt: HostRuntime) {
    for (place, case) in VARINTS32.iter().enumerate() {
        assert!(rt; read_varint32(case.0, case.1) == case.2, "varint32 {place}");
    }
    for (place, case) in VARINTS64.iter().enumerate() {
        assert!(rt; read_varint(case.0, 0) == case.1, "varint64 {place}");
    }
}

// Two varints, a fixed32 and a fixed64, written one after the other.
static NUMBERS: [u8; 16] = *b"\xb3\x01\xac\x02\x01\x02\x03\x04\xf7\xcf\xf4\x85\xb7\x41\xe2\x88";

// Appends these numbers.
fn put_numbers(out: &mut Bytes) -> bool {
    push_varint(out, 179).is_ok()
        && push_varint(out, 300).is_ok()
        && push_fixed32(out, 0x0403_0201).is_ok()
        && push_fixed64(out, 0x88e2_41b7_85f4_cff7).is_ok()
}

#[test]
fn numbers_are_written(rt: HostRuntime) {
    let mut out = Bytes::new(rt.alloc());
    assert!(rt; put_numbers(&mut out));
    assert!(rt; out.as_slice() == NUMBERS.as_slice());
}

// Whether fixed numbers are read where they stand, and none where the bytes end first.
fn are_read(bytes: &[u8]) -> bool {
    read_fixed32(bytes, 4) == Some(0x0403_0201)
        && read_fixed32(bytes, 13) == None
        && read_fixed64(bytes, 8) == Some(0x88e2_41b7_85f4_cff7)
        && read_fixed64(bytes, 9) == None
}

#[test]
fn fixed_numbers_are_read(rt: HostRuntime) {
    assert!(rt; are_read(&NUMBERS));
}

#[test]
fn varints_are_as_long_as_they_are_written(rt: HostRuntime) {
    for (value, bytes) in [(0, 1), (127, 1), (128, 2), (300, 2), (u64::MAX, 10)] {
        assert!(rt; varint_len(value) == bytes, "of {value}");
    }
}
