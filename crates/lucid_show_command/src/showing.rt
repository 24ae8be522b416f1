//! Showing a value of a program.
ghost use Rattle.std.specs.Prelude.{◌≡◌, IfOk};
ghost use Rattle.lucid_scope.specs.Scoped.{scoped_tree, scoped_inputs};
ghost use Rattle.lucid_equations.specs.Programs.{table_of};
ghost use Rattle.lucid_compile.specs.Settled.{table_of as tree_table};
ghost use Rattle.lucid_ports.specs.Told.{told};
ghost use Rattle.lucid_top.specs.Coming.{MayBegin};
ghost use Rattle.lucid_top.specs.declared.task.Task.{Task};
ghost use Rattle.lucid_show_command.specs.Shows.{Draws, IsDrawing, IsDrawn, TellsDrawn, Shown, no_name_text};
ghost use Rattle.lucid_show_command.specs.Words.{plain_wanted};
ghost use Rattle.lucid_show_outline.specs.Views.{view_of};

use crate::form::Form;
use crate::line::tell_line;
use crate::named::unknown_name;
use crate::words::Wanted;
use lucid_cert_rules::read_why;
use lucid_ports::{MemorySink, Places, Sink};
use lucid_report::{Status, Stop, tell};
use lucid_show_drawing::grid;
use lucid_show_grid::{grid_text, picture_text};
use lucid_show_outline::{Source, outline_text};
use lucid_top::{Certified, make_why, write_out};
use lucid_value::Name;
use std::alloc::{AllocError, Global};

// The text that shows the last judgment in a form, with so many lines or values at most.
fn drawing(source: &Source<'_>, form: Form, most: u32) -> Result<Vec<u8>, AllocError>
    ensures { IfOk result (λ text. IsDrawing form (view_of source.now) most text.items) }
{
    match form {
        Form::Outline => outline_text(source, most),
        Form::Grid => grid_text(source.alloc(), &grid(source, most)?),
        Form::Svg => picture_text(source.alloc(), &grid(source, most)?),
    }
}

// The text that shows the certificate that these bytes are the text of, as it is wanted. There are no bytes but those that were written of a
// certificate, so that they aren't read is for want of memory alone.
fn text_of(
    alloc: Global,
    certified: &Certified,
    certificate: &[u8],
    wanted: &Wanted,
) -> Result<Vec<u8>, AllocError>
    requires { table_of certified.now.program ≡ tree_table (scoped_tree certified.now.scoped) (scoped_inputs certified.now.scoped) }
    ensures { IfOk result (λ text. Draws (scoped_tree certified.now.scoped) (scoped_inputs certified.now.scoped) certificate.now (plain_wanted wanted.now) text.items) }
{
    let Ok(why) = read_why(alloc, certificate) else {
        return Err(AllocError);
    };
    let source = Source::make(
        alloc,
        certified.program.table(),
        certified.scoped.tree(),
        &why,
        &wanted.names,
    )?;
    drawing(&source, wanted.form, wanted.words.options.count)
}

/// What comes of drawing: a text, or the line that tells the name which the program hasn't.
#[derive(Drop)]
pub enum Drawn {
    Text(Vec<u8>),
    NoName(Vec<u8>),
}

// The line that tells a name which the program hasn't.
fn line_of_no_name(alloc: Global, name: &Name) -> Result<Vec<u8>, AllocError>
    ensures { IfOk result (λ line. line.items ≡ no_name_text name.now) }
{
    let mut line = Vec::new(alloc);
    line.extend_from_slice(b"no name ")?;
    line.extend_from_slice(name.bytes())?;
    line.extend_from_slice(b"\n")?;
    Ok(line)
}

// What is drawn of a certificate: nothing, where a name is wanted that the program hasn't.
fn draw(
    alloc: Global,
    certified: &Certified,
    certificate: &[u8],
    wanted: &Wanted,
) -> Result<Drawn, AllocError>
    requires { table_of certified.now.program ≡ tree_table (scoped_tree certified.now.scoped) (scoped_inputs certified.now.scoped) }
    ensures { IfOk result (IsDrawn (scoped_tree certified.now.scoped) (scoped_inputs certified.now.scoped) certificate.now (plain_wanted wanted.now)) }
{
    match unknown_name(alloc, &certified.scoped, &wanted.names)? {
        Some(name) => {
            let line = line_of_no_name(alloc, name)?;
            Ok(Drawn::NoName(line))
        }
        None => {
            let text = text_of(alloc, certified, certificate, wanted)?;
            Ok(Drawn::Text(text))
        }
    }
}

// Writes the text that is drawn and tells that it was; or tells why there is none.
fn tell_drawn<K: Sink, E: Sink>(
    drawn: Result<Drawn, AllocError>,
    out: &mut K,
    report: &mut E,
) -> Status
    ensures { TellsDrawn drawn (told K.written K.faults K.late out.old) (told K.written K.faults K.late out.new) (told E.written E.faults E.late report.old) (told E.written E.faults E.late report.new) result }
{
    match drawn {
        Ok(Drawn::Text(text)) => {
            let outcome = write_out(&text, out);
            tell(report, &outcome)
        }
        Ok(Drawn::NoName(line)) => tell_line(report, &line, Status::Refused),
        Err(_) => tell(report, &Err(Stop::NoMemory)),
    }
}

/// Shows what the value of the program that the words name was computed from, at the time that they ask for: of the names that are wanted, and
/// as much as the count at most. It makes a certificate in memory, writes what it draws of that, and reports how it ended.
pub(crate) fn show_value<P: Places, K: Sink, E: Sink>(
    alloc: Global,
    wanted: &Wanted,
    places: &mut P,
    out: &mut K,
    report: &mut E,
) -> Status
    requires { MayBegin wanted.now.words Task.Why (P.world places.old) }
    ensures { Shown (plain_wanted wanted.now) (P.world places.old) (P.world places.new) (told K.written K.faults K.late out.old) (told K.written K.faults K.late out.new)
        (told E.written E.faults E.late report.old) (told E.written E.faults E.late report.new) result }
{
    let mut made = MemorySink::make(alloc, usize::MAX, Vec::new(alloc));
    match make_why(alloc, &wanted.words, places, &mut made) {
        Ok(certified) => {
            let drawn = draw(alloc, &certified, made.written(), wanted);
            tell_drawn(drawn, out, report)
        }
        Err(stop) => tell(report, &Err(stop)),
    }
}
