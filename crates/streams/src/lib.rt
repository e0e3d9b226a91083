// Reading a stream into a lent buffer.
#![tactic(auto)]

ghost use Rattle.std.specs.Prelude.{◌≡◌, ◌≤◌, IfOk, length};

use std::io;
use std::io::Read;

// Reads until the buffer is full or the input ends; gives how many bytes stand at its start. An error leaves the buffer its length.
pub fn read_full<R: Read>(reader: &mut R, buffer: &mut [u8]) -> io::Result<usize>
    ensures read { IfOk result (λ n. n ≤ length buffer.new) }
    ensures kept { length buffer.new ≡ length buffer.old }
{
    let mut done = 0;
    while done < buffer.len() {
        let n = reader.read(&mut buffer[done..])?;
        if n == 0 {
            break;
        }
        done += n;
    }
    Ok(done)
}
