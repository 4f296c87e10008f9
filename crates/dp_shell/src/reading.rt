ghost use Rattle.std.specs.Prelude.{◌≡◌, ◌≤◌, ◌<◌, [], ℕ, length, take, vec_len, IfOk, IsErrOf};
ghost use Rattle.dp_shell.specs.Faults.{Rose};
ghost use Rattle.dp_shell.specs.Reads.{ReadsOnly};
ghost use Rattle.dp_shell.specs.Texts.{ReadsWhole};

use crate::{Piece, Shelf, next_piece};
use std::alloc::{AllocError, Global};

/// How many bytes are asked for at once.
const PIECE: usize = 65536;

/// Why a text was not read.
#[derive(Clone, Copy, Debug, PartialEq, Eq)]
pub enum ReadTrouble {
    /// A read failed, and the name's number of faults rose.
    Failed,
    /// Memory was wanted.
    Memory,
}

/// A text up to a limit of bytes.
#[derive(Drop)]
pub struct FilePart {
    pub text: Vec<u8>,
    /// The text goes on past the limit.
    pub is_cut: bool,
}

/// Reads a named text to its end, or up to a limit of bytes. It reads no other name.
pub fn read_whole<F: Shelf>(
    alloc: Global,
    shelf: &mut F,
    name: &str,
    limit: usize,
) -> Result<FilePart, ReadTrouble>
    ensures whole { IfOk result (λ whole. ReadsWhole
        (F.files shelf.old) name.now limit whole.text.items whole.is_cut) }
    ensures size { IfOk result (λ whole. length whole.text.items ≤ limit) }

    // Failed comes only where the name's number of faults rose.
    ensures later { F.faults shelf.old name.now ≤ F.faults shelf.new name.now }
    ensures failed { IsErrOf result ReadTrouble.Failed
        → Rose (F.faults shelf.old name.now) (F.faults shelf.new name.now) }

    // Whatever the answer, texts and names stay, no number falls, and each other name that has its
    // own keeps it.
    ensures reads { ReadsOnly F.files F.apart F.faults name.now shelf.old shelf.new }
{
    let Ok(mut piece) = zeros(alloc, PIECE) else {
        return Err(ReadTrouble::Memory);
    };
    let mut text = Vec::new(alloc);
    let is_cut = fill(shelf, name, limit, &mut piece, &mut text)?;
    Ok(FilePart { text, is_cut })
}

/// So many zero bytes.
fn zeros(alloc: Global, count: usize) -> Result<Vec<u8>, AllocError>
    ensures { IfOk result (λ bytes. vec_len bytes ≡ count) }
{
    vec![in alloc; 0u8; count]
}

/// Reads a named text piece by piece, to its end or up to a limit of bytes, and answers whether it
/// passes this limit.
fn fill<F: Shelf>(
    shelf: &mut F,
    name: &str,
    limit: usize,
    piece: &mut [u8],
    text: &mut Vec<u8>,
) -> Result<bool, ReadTrouble>
    requires room { 0 < length piece.old }
    requires empty { text.old.items ≡ [] }
    ensures whole { IfOk result (ReadsWhole (F.files shelf.old) name.now limit text.new.items) }
    ensures size { length text.new.items ≤ limit }
    ensures failed { IsErrOf result ReadTrouble.Failed
        → Rose (F.faults shelf.old name.now) (F.faults shelf.new name.now) }
    ensures reads { ReadsOnly F.files F.apart F.faults name.now shelf.old shelf.new }
{
    loop {
        match next_piece(shelf, name, text.len() as u64, limit as u64, piece) {
            Ok(Piece::Bytes { count }) => {
                if text.extend_from_slice(&piece[..count]).is_err() {
                    return Err(ReadTrouble::Memory);
                }
            }
            Ok(Piece::End) => return Ok(false),
            Ok(Piece::Cut) => return Ok(true),
            Err(_) => return Err(ReadTrouble::Failed),
        }
    }
}
