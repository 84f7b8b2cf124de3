//! Whole texts are taken and put in as many calls as it wants, and a call that failed is not tried
//! again.

ghost use Rattle.std.specs.Prelude.{Some};

use super::{Hashes, ShortWrites};
use crate::tests::given;
use tf_stream::{ReadFault, Told, WriteFault, read_to_limit, write_and_flush};

const TEXT: &[u8] = b"a   = 1\nbcd = 2\n";

#[test]
fn a_text_is_put_and_flushed_once(rt: HostRuntime) {
    for step in 1..18usize {
        let mut writer = Told::new(ShortWrites::new(Vec::new(rt.alloc()), 100, step));
        given(&rt, write_and_flush(TEXT, &mut writer));
        let writer = writer.into_inner();
        assert!(rt; writer.written.as_slice() == TEXT);
        assert_eq!(rt; writer.writes, 16usize.div_ceil(step) as u64);
        assert_eq!(rt; writer.flushes, 1);
    }
    let mut writer = ShortWrites::new(Vec::new(rt.alloc()), 100, 3);
    writer.flush_fails_at = 1;
    let mut writer = Told::new(writer);
    assert_eq!(rt;
        write_and_flush(TEXT, &mut writer),
        Err(WriteFault { sent: 16 })
    );
    assert_eq!(rt; writer.into_inner().flushes, 1);
}

#[test]
fn a_write_that_fails_or_takes_nothing_is_the_last(rt: HostRuntime) {
    for k in 0..16usize {
        for fails in [false, true] {
            let mut writer = ShortWrites::new(Vec::new(rt.alloc()), if fails { 100 } else { k }, 1);
            writer.write_fails_at = if fails { k as u64 + 1 } else { 0 };
            let mut writer = Told::new(writer);
            assert_eq!(rt;
                write_and_flush(TEXT, &mut writer),
                Err(WriteFault { sent: k })
            );
            let writer = writer.into_inner();
            assert!(rt; writer.written.as_slice() == &TEXT[..k]);
            assert_eq!(rt; writer.writes, k as u64 + 1);
            assert_eq!(rt; writer.flushes, 0);
        }
    }
}

#[test]
fn a_text_is_taken_up_to_its_limit(rt: HostRuntime) {
    for step in [1000usize, 65_536, 100_000] {
        let mut reader = Told::new(Hashes::new(200_001, step));
        let taken = given(&rt, read_to_limit(rt.alloc(), 200_001, &mut reader));
        assert_eq!(rt; taken.len(), 200_001);
        assert!(rt; taken.iter().all(|byte| *byte == b'#'));
        let mut reader = Told::new(Hashes::new(1 << 40, step));
        let taken = read_to_limit(rt.alloc(), 200_001, &mut reader);
        assert!(rt; taken.err() == Some(ReadFault::Endless), "at {step}");
        assert_eq!(rt; reader.into_inner().left, (1 << 40) - 200_002);
    }
}

#[test]
fn a_read_that_fails_is_the_last(rt: HostRuntime) {
    for k in 1..8u64 {
        let mut reader = Hashes::new(6000, 1000);
        reader.fails_at = k;
        reader.interrupted = k == 3;
        let mut reader = Told::new(reader);
        let taken = read_to_limit(rt.alloc(), 10_000, &mut reader);
        assert!(rt; taken.err() == Some(ReadFault::Read), "at {k}");
        assert_eq!(rt; reader.into_inner().reads, k);
    }
}
