use arrayvec::ArrayVec;
use std::test::*;
use wire_fields::*;

#[test]
fn writes_and_reads(rt: HostRuntime) {
    let mut bytes = ArrayVec::<u8, 9>::new();
    put(&mut bytes, &[0x47]);
    put_number16(&mut bytes, 0x0102);
    put_number32(&mut bytes, 0xFF05_0607);
    expect_eq!(rt; bytes.as_slice(), [0x47, 1, 2, 0xFF, 5, 6, 7].as_slice());
    expect_eq!(rt; number16(&[0x47, 1, 2, 0xFF], 1), 0x0102);
    expect_eq!(rt; number32(&[1, 2, 0xFF, 5, 6, 7], 2), 0xFF05_0607);
    expect_eq!(rt; number12(&[0x47, 0xB0, 0x0D], 1), 0x00D);
    expect_eq!(rt; bytes_from(&[1, 2, 3], 2), [3].as_slice());
}
