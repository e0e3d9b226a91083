// Bytes written as pieces: how many bytes a piece makes (two bytes), of how many it repeats (one
// byte), and those.
ghost use Rattle.std.specs.Prelude.{◌<◌, ◌≤◌, IfOk, IfSome, length};

use crate::compare::Fault;

// How many bytes a piece makes, those that it repeats, and what stands behind it.
#[derive(Clone, Copy)]
struct Piece<'a> {
    made: usize,
    repeated: &'a [u8],
    rest: &'a [u8],
}

// The piece at the start of an item, where it is whole, repeats a byte or more, and makes one or
// more and no more than `room`.
fn first_piece(item: &[u8], room: usize) -> Option<Piece<'_>>
    ensures made { IfSome result (λ p. (0 < p.made) × (p.made ≤ room)) }
    ensures repeated { IfSome result (λ p. 0 < length p.repeated.now) }
    ensures rest { IfSome result (λ p. length p.rest.now ≤ length item.now) }
{
    let [low, high, count, rest @ ..] = item else {
        return None;
    };
    let made = usize::from(u16::from_le_bytes([*low, *high]));
    let count = usize::from(*count);
    if made == 0 || room < made || count == 0 {
        return None;
    }
    let (repeated, rest) = rest.split_at_checked(count)?;
    Some(Piece {
        made,
        repeated,
        rest,
    })
}

// Fills bytes with the few, again and again.
fn repeat(few: &[u8], bytes: &mut [u8])
    requires { 0 < length few.now }
{
    for (i, byte) in bytes.iter_mut().enumerate() {
        *byte = few[i % few.len()];
    }
}

// Fills bytes with the pieces at the start of an item, and gives what stands behind them; an error
// where they make too few bytes or too many.
pub fn expand<'a>(item: &'a [u8], bytes: &mut [u8]) -> Result<&'a [u8], Fault>
    ensures { IfOk result (λ rest. length rest.now ≤ length item.now) }
{
    let mut rest = item;
    let mut done = 0;
    // While, not for: each piece makes as many bytes as it says.
    while done < bytes.len() {
        let piece = first_piece(rest, bytes.len() - done).ok_or(Fault::NotWhole)?;
        repeat(piece.repeated, &mut bytes[done..done + piece.made]);
        rest = piece.rest;
        done += piece.made;
    }
    Ok(rest)
}

// The same where nothing is to stand behind them.
pub fn expand_all(item: &[u8], bytes: &mut [u8]) -> Result<(), Fault> {
    if expand(item, bytes)?.is_empty() {
        Ok(())
    } else {
        Err(Fault::NotWhole)
    }
}
