// Reading a stream into lent room, for the programs.
#![tactic(auto)]

ghost use Rattle.std.specs.Prelude.{◌<◌, length, take, IfOk};
ghost use Rattle.std.specs.Io.{ReadsAtMost};
ghost use Rattle.std.specs.Io.KnownBytes.{Consumes, IsAtEnd};

use std::io::{self, Read};

// Reads until the room is full or the stream ends; how many bytes it put at the front. They are the stream's next bytes, and none is lost.
pub fn read_full<R: Read>(source: &mut R, room: &mut [u8]) -> io::Result<usize>
    ensures within { ReadsAtMost result room.new }
    ensures bytes { IfOk result (λ n. Consumes (R.remaining source.old) (R.remaining source.new) (take n room.new)) }
    ensures full { IfOk result (λ n. n < length room.new → IsAtEnd (R.remaining source.new)) }
{
    let mut done = 0;
    while done < room.len() {
        let n = source.read(&mut room[done..])?;
        if n == 0 {
            return Ok(done);
        }
        done += n;
    }
    Ok(done)
}

#[cfg(test)]
mod tests {
    use super::*;
    use std::test::Fail;

    #[test]
    fn fills_the_room_and_then_ends(rt: HostRuntime) -> Result<(), Fail> {
        let mut source = b"abcde".as_slice();
        let mut room = [0u8; 3];
        assert_eq!(rt; read_full(&mut source, &mut room)?, 3);
        assert_eq!(rt; room, *b"abc");
        assert_eq!(rt; read_full(&mut source, &mut room)?, 2);
        assert_eq!(rt; room, *b"dec");
        assert_eq!(rt; read_full(&mut source, &mut room)?, 0);
        Ok(())
    }
}
