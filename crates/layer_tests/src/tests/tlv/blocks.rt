//! Tests of octets that are moved as the front of a block.

use super::reader_of;
use crate::tests::{holds, refusal, same};
use der_tlv::{Length, Reader, SliceWriter, VecWriter, Writer};
use std::test::Fail;

#[test]
fn blocks_of_a_long_input(rt: HostRuntime) {
    let mut reader = reader_of(&[1, 2, 3, 4, 5, 6, 7, 8, 9]);
    match reader.read_front(Length::new(1)) {
        Ok(block) => same(&rt, block[0], 1),
        Err(_) => assert!(rt; false, "the octets are there"),
    }
    match reader.read_front(Length::new(8)) {
        Ok(block) => same(&rt, block, [2, 3, 4, 5, 6, 7, 8, 9]),
        Err(_) => assert!(rt; false, "the octets are there"),
    }
    holds(&rt, reader.is_finished());
}

#[test]
fn blocks_of_a_short_input(rt: HostRuntime) {
    let mut reader = reader_of(&[1, 2, 3]);
    match reader.read_front(Length::new(2)) {
        Ok(block) => same(&rt, &block[..2], [1, 2].as_slice()),
        Err(_) => assert!(rt; false, "the octets are there"),
    }
    same(&rt, refusal(reader.read_front(Length::new(2))), 2);
    same(&rt, refusal(reader.read_front(Length::ZERO)), 17);
}

#[test]
fn blocks_of_writers(rt: HostRuntime) -> Result<(), Fail> {
    let mut grown = VecWriter::new(rt.alloc());
    let mut roomy = VecWriter::with_capacity(rt.alloc(), 16)?;
    let mut buffer = [0; 4];
    let mut slice = SliceWriter::new(&mut buffer);
    for _ in 0..2 {
        grown.write_front([1, 2, 3, 4, 5, 6, 7, 8], 2)?;
        roomy.write_front([1, 2, 3, 4, 5, 6, 7, 8], 2)?;
        slice.write_front([1, 2, 3, 4, 5, 6, 7, 8], 2)?;
    }
    same(
        &rt,
        refusal(slice.write_front([1, 2, 3, 4, 5, 6, 7, 8], 1)),
        10,
    );
    same(&rt, grown.finish().as_slice(), [1, 2, 1, 2].as_slice());
    same(&rt, roomy.finish().as_slice(), [1, 2, 1, 2].as_slice());
    same(&rt, slice.finish(), [1, 2, 1, 2].as_slice());
    Ok(())
}
