//! A text that is read piece by piece, as a stream.
ghost use Rattle.std.specs.Prelude.{◌≡◌, ◌≤◌, ◌<◌, ℕ, List, length, min, IfOk};
ghost use Rattle.dp_shell.specs.Faults.{HasCause};
ghost use Rattle.dp_shell.specs.Pieces.{Continues, IsPieceWithin};
ghost use Rattle.dp_shell.specs.Reads.{ReadsOnly};
ghost use Rattle.dp_shell.specs.Texts.{ReadsPrefix};

use crate::{Failed, Shelf};

/// What comes next of a text, up to a limit of bytes.
#[derive(Clone, Copy, Debug, PartialEq, Eq)]
pub enum Piece {
    /// So many bytes more, at least one.
    Bytes { count: usize },
    /// Nothing: the text ends here.
    End,
    /// The limit is reached, and the text goes on.
    Cut,
}

/// Reads what comes next of a named text from offset `from` on, up to a limit of bytes, and copies
/// it to the front of `into`. It reads no other name.
pub fn next_piece<F: Shelf>(
    shelf: &mut F,
    name: &str,
    from: u64,
    limit: u64,
    into: &mut [u8],
) -> Result<Piece, Failed>
    requires room { 0 < length into.old }
    requires within { from ≤ limit }
    ensures size { IfOk result (IsPieceWithin from limit (length into.new)) }

    // Whatever was read before, up to here, is continued by what comes next.
    ensures part { IfOk result (λ piece. (before : List ℕ) → length before ≡ from
        → ReadsPrefix (F.files shelf.old) name.now before
        → Continues (F.files shelf.old) name.now limit before into.new piece) }

    // Texts and names stay, no number falls, and each other name that has its own keeps it.
    ensures cause { HasCause (F.faults shelf.old name.now) (F.faults shelf.new name.now) result }
    ensures reads { ReadsOnly F.files F.apart F.faults name.now shelf.old shelf.new }
{
    let most = room_for(into.len(), limit - from);
    let count = shelf.read(name, from, &mut into[..most.max(1)])?;
    if count == 0 {
        return Ok(Piece::End);
    }
    if most == 0 {
        return Ok(Piece::Cut);
    }
    Ok(Piece::Bytes { count })
}

/// How many bytes there is room for, but no more than are left.
fn room_for(room: usize, left: u64) -> usize
    ensures { result ≡ min room left }
{
    match usize::try_from(left) {
        Ok(left) => room.min(left),
        Err(_) => room,
    }
}
