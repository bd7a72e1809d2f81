//! Numbers in fields of bytes.

use byte_fields::{get_i64, get_u16, get_u32, get_u64, put_i64, put_u16, put_u32, put_u64};

#[test]
fn numbers_stand_with_their_highest_byte_first(rt: HostRuntime) {
    let mut bytes = [9u8; 10];
    put_u16(&mut bytes, 1, 0x0102);
    let shorts = (get_u16(&bytes, 1), bytes);
    put_u32(&mut bytes, 5, 0x0a0b_0c0d);
    let words = (get_u32(&bytes, 5), bytes);
    put_u64(&mut bytes, 2, 0x0102_0304_0506_0708);
    let longs = (get_u64(&bytes, 2), bytes);
    put_i64(&mut bytes, 0, -2);
    let signed = (get_i64(&bytes, 0), bytes);
    assert_eq!(rt; shorts, (0x0102, [9, 1, 2, 9, 9, 9, 9, 9, 9, 9]));
    assert_eq!(rt; words, (0x0a0b_0c0d, [9, 1, 2, 9, 9, 10, 11, 12, 13, 9]));
    assert_eq!(rt;
        longs,
        (0x0102_0304_0506_0708, [9, 1, 1, 2, 3, 4, 5, 6, 7, 8])
    );
    assert_eq!(rt;
        signed,
        (-2, [255, 255, 255, 255, 255, 255, 255, 254, 7, 8])
    );
}
