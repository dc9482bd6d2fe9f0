//! The fault texts, and how one is told without memory.
ghost use Rattle.outside_io.specs.Bytes.{AppendsWhole};
ghost use Rattle.outside_io.specs.Faults.{HasCause};
ghost use Rattle.std.specs.Prelude.{◌∷◌, [], codes};
ghost use Rattle.std.specs.List.{concat};
ghost use Rattle.replay_cli.specs.FaultTexts.{at_field, refusal_text, refused, site_text, terrain_refused, terrain_text, text_of_fault};
ghost use Rattle.replay_cli.specs.Pieces.{piece_text};
ghost use Rattle.replay_cli.specs.Endings.{Tells};

pub(crate) mod causes;
mod pieces;

use crate::texts::pieces::{Piece, tell_pieces};
use command_words::Name;
pub use command_words::USAGE;
use outside_io::source::Failed;
use outside_io::{Sink, write_whole};
use site_params::{Field, SiteFault};
use terrain_file::TerrainFault;

/// Why a file that was read is refused.
#[derive(Clone, Copy, Debug, PartialEq, Eq)]
pub enum Refusal {
    /// The site file.
    Site(SiteFault),
    /// The terrain file.
    Terrain(TerrainFault),
}

/// A fault that ends a run, as it is told.
#[derive(Debug, Drop)]
pub enum FaultText {
    /// Words without a plan.
    Usage,
    /// A file that is refused.
    Refused(Refusal),
    /// A name that doesn't open.
    CannotOpen(Name),
    /// A name of which a read failed.
    ReadFailed(Name),
    /// A write that failed.
    WriteFailed,
    /// Want of memory.
    NoMemory,
}

/// Tells the text, as far as the sink takes it. It takes no memory.
pub fn tell<K: Sink>(text: &FaultText, sink: &mut K)
    ensures { Tells (K.taken sink.old) (K.taken sink.new) (K.faults sink.old) (K.faults sink.new) (text_of_fault text.now) }
{
    let _ = tell_fault(text, sink);
}

/// Writes the text of a fault.
fn tell_fault<K: Sink>(text: &FaultText, sink: &mut K) -> Result<(), Failed>
    ensures bytes { AppendsWhole (K.taken sink.old) (K.taken sink.new) result (text_of_fault text.now) }
    ensures cause { HasCause (K.faults sink.old) (K.faults sink.new) result }
{
    match text {
        FaultText::Usage => write_whole(sink, USAGE.as_bytes()),
        FaultText::Refused(refusal) => tell_refusal(*refusal, sink),
        FaultText::CannotOpen(name) => tell_named("cannot open ", name.as_str(), sink),
        FaultText::ReadFailed(name) => tell_named("read failed: ", name.as_str(), sink),
        FaultText::WriteFailed => write_whole(sink, b"write failed\n"),
        FaultText::NoMemory => write_whole(sink, b"out of memory\n"),
    }
}

/// Writes words and a name behind them.
fn tell_named<'a, K: Sink>(words: &'a str, name: &'a str, sink: &mut K) -> Result<(), Failed>
    ensures bytes { AppendsWhole (K.taken sink.old) (K.taken sink.new) result (concat (words.now ∷ name.now ∷ codes "\n" ∷ [])) }
    ensures cause { HasCause (K.faults sink.old) (K.faults sink.new) result }
{
    tell_pieces(
        &[Piece::Words(words), Piece::Words(name), Piece::Words("\n")],
        sink,
    )
}

/// Writes why a file is refused.
fn tell_refusal<K: Sink>(refusal: Refusal, sink: &mut K) -> Result<(), Failed>
    ensures bytes { AppendsWhole (K.taken sink.old) (K.taken sink.new) result (refusal_text refusal) }
    ensures cause { HasCause (K.faults sink.old) (K.faults sink.new) result }
{
    match refusal {
        Refusal::Site(fault) => tell_site(fault, sink),
        Refusal::Terrain(fault) => tell_terrain(fault, sink),
    }
}

/// Writes the text of a terrain's fault.
fn tell_terrain<K: Sink>(fault: TerrainFault, sink: &mut K) -> Result<(), Failed>
    ensures bytes { AppendsWhole (K.taken sink.old) (K.taken sink.new) result (terrain_text fault) }
    ensures cause { HasCause (K.faults sink.old) (K.faults sink.new) result }
{
    match fault {
        TerrainFault::Magic => write_whole(sink, b"terrain refused: 1\n"),
        TerrainFault::Cell(side) => tell_pieces(
            &[
                Piece::Words("terrain refused: 2 side "),
                Piece::Number(u64::from(side)),
                Piece::Words("\n"),
            ],
            sink,
        ),
        TerrainFault::Count(columns, rows) => tell_cells(columns, rows, sink),
        TerrainFault::Size(stated, found) => {
            tell_counts("terrain refused: 4 stated ", stated, " found ", found, sink)
        }
        TerrainFault::NoMemory => write_whole(sink, b"out of memory\n"),
    }
}

/// Writes how many columns and rows of cells are told, of which one is out of range.
fn tell_cells<K: Sink>(columns: u16, rows: u16, sink: &mut K) -> Result<(), Failed>
    ensures bytes { AppendsWhole (K.taken sink.old) (K.taken sink.new) result (terrain_refused (codes "terrain refused: 3 columns ") columns (codes " rows ") rows) }
    ensures cause { HasCause (K.faults sink.old) (K.faults sink.new) result }
{
    tell_counts(
        "terrain refused: 3 columns ",
        u64::from(columns),
        " rows ",
        u64::from(rows),
        sink,
    )
}

/// Writes two numbers, each behind its words.
fn tell_counts<'a, K: Sink>(
    words: &'a str,
    first: u64,
    more: &'a str,
    second: u64,
    sink: &mut K,
) -> Result<(), Failed>
    ensures bytes { AppendsWhole (K.taken sink.old) (K.taken sink.new) result (terrain_refused words.now first more.now second) }
    ensures cause { HasCause (K.faults sink.old) (K.faults sink.new) result }
{
    tell_pieces(
        &[
            Piece::Words(words),
            Piece::Number(first),
            Piece::Words(more),
            Piece::Number(second),
            Piece::Words("\n"),
        ],
        sink,
    )
}

/// Writes the text of a site's fault.
fn tell_site<K: Sink>(fault: SiteFault, sink: &mut K) -> Result<(), Failed>
    ensures bytes { AppendsWhole (K.taken sink.old) (K.taken sink.new) result (site_text fault) }
    ensures cause { HasCause (K.faults sink.old) (K.faults sink.new) result }
{
    match fault {
        SiteFault::Syntax => tell_refused(1, sink),
        SiteFault::Missing(field) => tell_field(2, field, sink),
        SiteFault::Kind(field) => tell_field(3, field, sink),
        SiteFault::Range(field, value) => {
            tell_field_with(4, field, " value ", Piece::Signed(value), sink)
        }
        SiteFault::Twice(field, first) => {
            tell_field_with(5, field, " first ", Piece::Number(u64::from(first)), sink)
        }
        SiteFault::NoSuchName(field) => tell_field(6, field, sink),
        SiteFault::Long => tell_refused(7, sink),
        SiteFault::NoMemory => write_whole(sink, b"out of memory\n"),
    }
}

/// Writes the number of a site's fault.
fn tell_refused<K: Sink>(number: u64, sink: &mut K) -> Result<(), Failed>
    ensures bytes { AppendsWhole (K.taken sink.old) (K.taken sink.new) result (refused number (codes "\n" ∷ [])) }
    ensures cause { HasCause (K.faults sink.old) (K.faults sink.new) result }
{
    tell_pieces(
        &[
            Piece::Words("site refused: "),
            Piece::Number(number),
            Piece::Words("\n"),
        ],
        sink,
    )
}

/// Writes the number of a site's fault, and its field.
fn tell_field<K: Sink>(number: u64, field: Field, sink: &mut K) -> Result<(), Failed>
    ensures bytes { AppendsWhole (K.taken sink.old) (K.taken sink.new) result (refused number (at_field field (codes "\n" ∷ []))) }
    ensures cause { HasCause (K.faults sink.old) (K.faults sink.new) result }
{
    tell_pieces(
        &[
            Piece::Words("site refused: "),
            Piece::Number(number),
            Piece::Words(" field "),
            Piece::Number(u64::from(field.number)),
            Piece::Words(" entry "),
            Piece::Number(u64::from(field.entry)),
            Piece::Words("\n"),
        ],
        sink,
    )
}

/// Writes the number of a site's fault, its field, and what more is told of it.
fn tell_field_with<'a, K: Sink>(
    number: u64,
    field: Field,
    words: &'a str,
    more: Piece<'a>,
    sink: &mut K,
) -> Result<(), Failed>
    ensures bytes { AppendsWhole (K.taken sink.old) (K.taken sink.new) result (refused number (at_field field (words.now ∷ piece_text more.entry ∷ codes "\n" ∷ []))) }
    ensures cause { HasCause (K.faults sink.old) (K.faults sink.new) result }
{
    tell_pieces(
        &[
            Piece::Words("site refused: "),
            Piece::Number(number),
            Piece::Words(" field "),
            Piece::Number(u64::from(field.number)),
            Piece::Words(" entry "),
            Piece::Number(u64::from(field.entry)),
            Piece::Words(words),
            more,
            Piece::Words("\n"),
        ],
        sink,
    )
}
