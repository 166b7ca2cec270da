// What a program reads.
#![tactic(auto)]

ghost use Rattle.std.specs.Prelude.{◌<◌, ◌≤◌, OnOk, length, take};
ghost use Rattle.std.specs.Io.KnownBytes.{Consumes, IsAtEnd};

use std::io;
use std::io::Read;

// Fills a buffer, and returns how many bytes it was given: fewer than it has room for where the input ends before, or where a read fails, which is
// told beside the count.
pub fn read_full<R: Read>(reader: &mut R, buffer: &mut [u8]) -> (usize, io::Result<()>)
    ensures bound { result.0 ≤ length buffer.new }
    ensures bytes { Consumes (R.remaining reader.old) (R.remaining reader.new) (take result.0 buffer.new) }
    ensures end { OnOk result.1 (result.0 < length buffer.new → IsAtEnd (R.remaining reader.new)) }
{
    let mut done = 0;
    while done < buffer.len() {
        match reader.read(&mut buffer[done..]) {
            Ok(0) => return (done, Ok(())),
            Ok(n) => done += n,
            Err(why) => return (done, Err(why)),
        }
    }
    (done, Ok(()))
}

#[cfg(test)]
mod tests {
    use super::*;
    use std::io::ErrorKind;
    use std::test::Fail;

    // Gives two bytes at a time, and fails once it has given four.
    #[derive(Drop)]
    struct Failing {
        given: u8,
    }

    impl Read for Failing {
        fn read(&mut self, buf: &mut [u8]) -> io::Result<usize> {
            if 4 <= self.given {
                return Err(ErrorKind::Other.into());
            }
            if buf.len() < 2 {
                return Ok(0);
            }
            buf[0] = self.given + 1;
            buf[1] = self.given + 2;
            self.given += 2;
            Ok(2)
        }
    }

    #[test]
    fn keeps_what_came_before_a_failing_read(rt: HostRuntime) {
        let mut buffer = [9u8; 7];
        let (n, ended) = read_full(&mut Failing { given: 0 }, &mut buffer);
        assert_eq!(rt; n, 4);
        assert!(rt; ended.is_err());
        assert_eq!(rt; buffer.as_slice(), [1, 2, 3, 4, 9, 9, 9].as_slice());
    }

    #[test]
    fn reads_no_more_than_there_is_room_for(rt: HostRuntime) -> Result<(), Fail> {
        let mut bytes: &[u8] = b"12345";
        let mut buffer = [0u8; 3];
        for due in [3, 2, 0] {
            let (n, ended) = read_full(&mut bytes, &mut buffer);
            ended?;
            assert_eq!(rt; n, due);
        }
        assert_eq!(rt; buffer.as_slice(), b"453".as_slice());
        Ok(())
    }
}
