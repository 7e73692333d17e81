//! A refused attribute.

use awd_attributes::AttributeReader;

/// A number of two bytes under "ab", and a text under no name, whose type, at 15, there is not; its size, behind that, would be too large.
const PART: [u8; 22] = [
    1, 2, 0, 97, 98, 2, 2, 0, 0, 0, 254, 255, // 10 bytes of fields, two of the number
    0, 0, 0, 11, 200, 0, 0, 0, 104, 105,
];

#[test]
fn a_fault_comes_again(rt: HostRuntime) {
    let mut reader = AttributeReader::new(&PART);
    assert!(rt; matches!(reader.next(), Ok(Some(_))));
    for _ in 0..3 {
        let told = reader.next().err().map(|f| (
            f.cause.number(),
            f.place,
            f.block,
            f.layer.number(),
            f.index,
        ));
        assert_eq!(rt; told, Some((13, 15, 0, 3, Some(1))));
    }
}
