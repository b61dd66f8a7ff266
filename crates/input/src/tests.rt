use crate::read_full;
use std::io;
use std::io::{Error, ErrorKind, Read};

#[derive(Clone, Copy)]
struct Failing;

impl Read for Failing {
    fn read(&mut self, _bytes: &mut [u8]) -> io::Result<usize> {
        Err(Error::from(ErrorKind::Interrupted))
    }
}

// A read of a chain gives bytes of one part at most, so one read is not enough.
#[test]
fn reads_on_until_full_or_at_the_end(rt: HostRuntime) {
    for (room, want) in [(0, 0), (1, 1), (2, 2), (3, 3), (5, 5), (8, 5)] {
        let mut input = b"ab".as_slice().chain(b"cde".as_slice());
        let mut bytes = [0u8; 8];
        let mut rest = [0u8; 8];
        let read = read_full(&mut input, &mut bytes[..room]).ok();
        let left = read_full(&mut input, &mut rest).ok();
        assert_eq!(rt; read, Some(want), "room for {room}");
        assert_eq!(rt; left, Some(5 - want), "after {room}");
        let (front, back) = b"abcde".split_at(want);
        assert!(rt; bytes.starts_with(front), "read into {room}");
        assert!(rt; rest.starts_with(back), "read after {room}");
    }
}

#[test]
fn a_read_that_fails_ends_it(rt: HostRuntime) {
    for (room, want) in [(1, Some(1)), (2, Some(2)), (3, None), (8, None)] {
        let mut input = b"ab".as_slice().chain(Failing);
        let mut bytes = [0u8; 8];
        let read = read_full(&mut input, &mut bytes[..room]).ok();
        assert_eq!(rt; read, want, "room for {room}");
    }
}
