use crate::read_full;
use std::io;
use std::io::{ErrorKind, Read};
use std::test::Fail;

// Gives a byte at a time, and fails once where none is left.
#[derive(Drop)]
struct Halting<'a> {
    bytes: &'a [u8],
    failed: bool,
}

impl Read for Halting<'_> {
    fn read(&mut self, buf: &mut [u8]) -> io::Result<usize> {
        if self.bytes.is_empty() && !self.failed {
            self.failed = true;
            return Err(ErrorKind::Other.into());
        }
        if self.bytes.is_empty() || buf.is_empty() {
            return Ok(0);
        }
        buf[0] = self.bytes[0];
        self.bytes = &self.bytes[1..];
        Ok(1)
    }
}

#[test]
fn reads_what_fits(rt: HostRuntime) -> Result<(), Fail> {
    for (text, want) in [("", 0), ("abc", 3), ("abcd", 4), ("abcde", 4)] {
        let mut buffer = [b'.'; 4];
        let count = read_full(&mut text.as_bytes(), &mut buffer)?;
        assert_eq!(rt; count, want, "at {text}");
        assert!(rt; text.as_bytes().starts_with(&buffer[..count]), "at {text}");
    }
    Ok(())
}

#[test]
fn joins_short_reads_and_hands_on_an_error(rt: HostRuntime) -> Result<(), Fail> {
    let mut reader = Halting {
        bytes: b"abcdef",
        failed: false,
    };
    let mut buffer = [b'.'; 4];
    assert_eq!(rt; read_full(&mut reader, &mut buffer)?, 4);
    assert_eq!(rt; buffer, *b"abcd");
    assert!(rt; read_full(&mut reader, &mut buffer).is_err());
    assert_eq!(rt; read_full(&mut reader, &mut buffer)?, 0);
    Ok(())
}
