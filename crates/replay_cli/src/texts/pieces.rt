//! A text told in pieces, without memory.
ghost use Rattle.outside_io.specs.Bytes.{AppendsWhole};
ghost use Rattle.outside_io.specs.Faults.{HasCause};
ghost use Rattle.replay_cli.specs.Pieces.{piece_text, pieces_text};

use itoa::Buffer;
use outside_io::source::Failed;
use outside_io::{Sink, write_whole};

/// Words as they stand, or a number in decimal digits.
#[derive(Clone, Copy)]
pub enum Piece<'a> {
    Words(&'a str),
    Number(u64),
    Signed(i64),
}

/// Writes a piece.
fn tell_piece<K: Sink>(piece: Piece<'_>, sink: &mut K) -> Result<(), Failed>
    ensures bytes { AppendsWhole (K.taken sink.old) (K.taken sink.new) result (piece_text piece.entry) }
    ensures cause { HasCause (K.faults sink.old) (K.faults sink.new) result }
{
    let mut buffer = Buffer::new();
    match piece {
        Piece::Words(words) => write_whole(sink, words.as_bytes()),
        Piece::Number(number) => write_whole(sink, buffer.format(number).as_bytes()),
        Piece::Signed(number) => write_whole(sink, buffer.format(number).as_bytes()),
    }
}

/// Writes the pieces in order, and stops at the first that fails.
pub fn tell_pieces<K: Sink>(pieces: &[Piece<'_>], sink: &mut K) -> Result<(), Failed>
    ensures bytes { AppendsWhole (K.taken sink.old) (K.taken sink.new) result (pieces_text pieces.now) }
    ensures cause { HasCause (K.faults sink.old) (K.faults sink.new) result }
{
    for piece in pieces {
        tell_piece(*piece, sink)?;
    }
    Ok(())
}
