//! `Told` forwards each call once, with its whole argument, and returns its answer: no clause can
//! say so if the bytes are unknown.

use super::{Hashes, ShortWrites};
use crate::tests::given;
use std::io::{Read, Write};
use tf_stream::Told;

#[test]
fn reads_are_forwarded_once(rt: HostRuntime) {
    let mut reader = Hashes::new(20, 8);
    reader.fails_at = 4;
    let mut reader = Told::new(reader);
    let mut buf = [0u8; 8];
    assert!(rt; given(&rt, reader.read(&mut buf)) == 8);
    assert_eq!(rt; buf, [b'#'; 8]);
    assert!(rt; given(&rt, reader.read(&mut buf[..7])) == 7);
    assert!(rt; given(&rt, reader.read(&mut buf[..0])) == 0);
    assert!(rt; !reader.failed());
    assert!(rt; reader.read(&mut buf).is_err());
    assert!(rt; reader.failed());
    assert!(rt; given(&rt, reader.read(&mut buf)) == 5);
    assert!(rt; reader.failed());
    let reader = reader.into_inner();
    assert_eq!(rt; reader.reads, 5);
    assert_eq!(rt; reader.left, 0);
}

#[test]
fn writes_and_flushes_are_forwarded_once(rt: HostRuntime) {
    let mut writer = ShortWrites::new(Vec::new(rt.alloc()), 8, 8);
    writer.write_fails_at = 4;
    writer.flush_fails_at = 2;
    let mut writer = Told::new(writer);
    assert!(rt; given(&rt, writer.write(b"abcdefg")) == 7);
    assert!(rt; given(&rt, writer.write(b"")) == 0);
    assert!(rt; given(&rt, writer.write(b"hi")) == 1);
    given(&rt, writer.flush());
    assert!(rt; !writer.failed());
    assert!(rt; writer.write(b"i").is_err());
    assert!(rt; writer.failed());
    assert!(rt; writer.flush().is_err());
    given(&rt, writer.flush());
    assert!(rt; writer.failed());
    let writer = writer.into_inner();
    assert_eq!(rt; writer.writes, 4);
    assert_eq!(rt; writer.flushes, 3);
    assert!(rt; writer.written.as_slice() == b"abcdefgh".as_slice());
}

#[test]
fn a_write_that_takes_nothing_has_failed(rt: HostRuntime) {
    let mut writer = Told::new(ShortWrites::new(Vec::new(rt.alloc()), 0, 2));
    assert!(rt; given(&rt, writer.write(b"")) == 0);
    assert!(rt; !writer.failed());
    assert!(rt; given(&rt, writer.write(b"d")) == 0);
    assert!(rt; writer.failed());
}
