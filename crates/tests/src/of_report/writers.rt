//! Writers that do not go on.

use cells::Refused;
use report::{Pour, write_whole};
use std::io::{Error, ErrorKind, Write};
use std::test::Fail;

/// Answers 0 where there is nothing to give, or else fails.
#[derive(Drop)]
struct Stopped {
    calls: u32,
    fails: bool,
}

impl Write for Stopped {
    fn write(&mut self, _bytes: &[u8]) -> std::io::Result<usize> {
        self.calls = self.calls.saturating_add(1);
        if self.fails {
            return Err(Error::from(ErrorKind::Interrupted));
        }
        Ok(0)
    }

    fn flush(&mut self) -> std::io::Result<()> {
        Ok(())
    }
}

#[test]
fn a_fault_is_not_tried_again(rt: HostRuntime) -> Result<(), Fail> {
    for fails in [false, true] {
        let mut out = Pour::new(Stopped { calls: 0, fails });
        let answer = write_whole(&mut out, b"12");
        assert_eq!(rt; answer, Err(Refused::WriteFailed));
        assert_eq!(rt; out.into_inner().calls, 1);
    }
    Ok(())
}
