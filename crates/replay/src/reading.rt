// Items of the list: each is its length, four bytes, and so many bytes, the first of which is its
// kind.
ghost use Rattle.std.specs.Prelude.{◌≡◌, ◌<◌, ◌≤◌, IfOk, IfSome, MatchResult, length};
ghost use Rattle.replay.specs.Kinds.{kind_byte};

use crate::calls::Call;
use crate::compare::{Fault, Stop};
use std::io::Read;
use streams::read_full;

#[derive(Clone, Copy, Debug, PartialEq, Eq)]
pub enum Kind {
    Call(Call),
    Input,
}

impl TryFrom<u8> for Kind {
    type Error = Fault;

    ghost try_from_gives = { λ byte r. MatchResult r (λ kind. kind_byte kind ≡ byte) (λ _. 4 < byte) };

    fn try_from(byte: u8) -> Result<Kind, Fault> {
        match byte {
            0 => Ok(Kind::Call(Call::Reduce)),
            1 => Ok(Kind::Call(Call::ReduceByList)),
            2 => Ok(Kind::Call(Call::Mark)),
            3 => Ok(Kind::Call(Call::AreaCards)),
            4 => Ok(Kind::Input),
            _ => Err(Fault::NotWhole),
        }
    }
}

// Reads the next item to the start of `item` and gives its length, or None at the list's end.
pub fn read_item(list: &mut impl Read, item: &mut [u8]) -> Result<Option<usize>, Stop>
    ensures read { IfOk result (λ got. IfSome got (λ n. n ≤ length item.new)) }
    ensures kept { length item.new ≡ length item.old }
{
    let mut head = [0; 4];
    let got = read_full(list, &mut head)?;
    if got == 0 {
        return Ok(None);
    }
    if got < 4 {
        return Err(Stop::Fault(Fault::CutOff));
    }
    let n = u32::from_le_bytes(head) as usize;
    if item.len() < n {
        return Err(Stop::Fault(Fault::TooLong));
    }
    if read_full(list, &mut item[..n])? < n {
        return Err(Stop::Fault(Fault::CutOff));
    }
    Ok(Some(n))
}
