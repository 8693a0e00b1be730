//! What could be made on a board: the tricks of each declarer in each denomination, and par.
ghost use Rattle.std.specs.Prelude.{◌≡◌, ◌≤◌, ◌+◌, ◌++◌, length};
ghost use Rattle.arrayvec.specs.ArrayVec.{array_vec_len};
ghost use Rattle.line_text.specs.Streams.{stream, Written};
ghost use Rattle.page_layout.specs.declared.format.Format.TheVariants.{Plain, Html};
ghost use Rattle.bridge_results.specs.MakeableText.{makeable_cell, makeable_row, denomination_title, makeable_head, makeable_table, makeable_text, known_text, makeable_on};

use crate::makeable::Makeable;
use crate::pages::columns::MAKEABLE_COLUMNS;
use crate::pages::par::write_board_par;
use bridge_cards::{BoardNumber, Seat, seat_text};
use bridge_par::TrickTable;
use line_text::{NumberText, number_text, write_text};
use page_layout::{
    Content, Format, PageText, push_bytes, push_html, push_row, push_table_end, push_titles,
};
use std::io::{Error, Write};

/// What could be made on a board, if it is known.
pub fn makeable_on(analysis: &[Option<Makeable>], board: BoardNumber) -> Option<Makeable>
    ensures { result ≡ makeable_on analysis.now board }
{
    *analysis.get(usize::from(board.number() - 1))?
}

/// So many tricks, where they are seven or more, and otherwise a dash.
fn makeable_cell(tricks: u8) -> NumberText
    ensures text { result.bytes ≡ makeable_cell tricks }
    ensures short { length result.bytes ≤ 10 }
{
    if tricks < 7 {
        let mut text = NumberText::new();
        text.push_str("-");
        text
    } else {
        number_text(u32::from(tricks))
    }
}

/// Adds a declarer's row.
#[tactic(auto, unfolding(crate::specs::MakeableText::makeable_row))]
fn push_makeable(text: &mut PageText, format: Format, table: &TrickTable, seat: Seat)
    requires { array_vec_len text.old ≤ 8000 }
    ensures text { text.new.items ≡ text.old.items ++ makeable_row format table.now seat }
    ensures room { array_vec_len text.new ≤ array_vec_len text.old + 1900 }
{
    let clubs = makeable_cell(table.clubs.of(seat));
    let diamonds = makeable_cell(table.diamonds.of(seat));
    let hearts = makeable_cell(table.hearts.of(seat));
    let spades = makeable_cell(table.spades.of(seat));
    let no_trump = makeable_cell(table.no_trump.of(seat));
    let cells = [
        seat_text(seat).as_bytes(),
        clubs.as_str().as_bytes(),
        diamonds.as_str().as_bytes(),
        hearts.as_str().as_bytes(),
        spades.as_str().as_bytes(),
        no_trump.as_str().as_bytes(),
    ];
    push_row(text, format, &MAKEABLE_COLUMNS, &cells);
}

/// The title of a denomination in HTML.
#[tactic(auto, unfolding(crate::specs::MakeableText::denomination_title))]
fn denomination_title(letters: &[u8]) -> PageText
    requires { length letters.now ≤ 2 }
    ensures title { result.items ≡ denomination_title letters.now }
    ensures short { array_vec_len result ≤ 100 }
{
    let mut text = PageText::new();
    push_bytes(&mut text, b"<th scope=\"col\" class=\"r\">");
    push_html(&mut text, Content::Cards, letters);
    push_bytes(&mut text, b"</th>");
    text
}

/// What stands above the rows in HTML.
#[tactic(auto, unfolding(crate::specs::MakeableText::makeable_head))]
fn html_head() -> PageText
    ensures head { result.items ≡ makeable_head Html }
    ensures short { array_vec_len result ≤ 700 }
{
    let mut text = PageText::new();
    push_bytes(
        &mut text,
        b"<table class=\"makeable\">\n<caption>Can be made</caption>\n<thead><tr><th scope=\"col\">By</th>",
    );
    push_bytes(&mut text, denomination_title(b"C").as_slice());
    push_bytes(&mut text, denomination_title(b"D").as_slice());
    push_bytes(&mut text, denomination_title(b"H").as_slice());
    push_bytes(&mut text, denomination_title(b"S").as_slice());
    push_bytes(&mut text, denomination_title(b"NT").as_slice());
    push_bytes(&mut text, b"</tr></thead>\n");
    text
}

/// The same in plain text.
#[tactic(auto, unfolding(crate::specs::MakeableText::makeable_head))]
fn plain_head() -> PageText
    ensures head { result.items ≡ makeable_head Plain }
    ensures short { array_vec_len result ≤ 1000 }
{
    let titles: [&[u8]; 6] = [b"Can be made", b"C", b"D", b"H", b"S", b"NT"];
    let mut text = PageText::new();
    push_titles(&mut text, Format::Plain, &MAKEABLE_COLUMNS, &titles);
    text
}

/// What stands above the rows.
fn makeable_head(format: Format) -> PageText
    ensures head { result.items ≡ makeable_head format }
    ensures short { array_vec_len result ≤ 1000 }
{
    match format {
        Format::Plain => plain_head(),
        Format::Html => html_head(),
    }
}

/// The rows of all declarers, below their titles.
#[tactic(auto, unfolding(crate::specs::MakeableText::makeable_table))]
fn makeable_table(format: Format, table: &TrickTable) -> PageText
    ensures { result.items ≡ makeable_table format table.now }
{
    let mut text = makeable_head(format);
    push_makeable(&mut text, format, table, Seat::North);
    push_makeable(&mut text, format, table, Seat::South);
    push_makeable(&mut text, format, table, Seat::East);
    push_makeable(&mut text, format, table, Seat::West);
    push_table_end(&mut text, format);
    text
}

/// Writes the tricks of all declarers.
fn write_table<W: Write>(format: Format, table: &TrickTable, writer: &mut W) -> Result<(), Error>
    ensures { Written (stream W.contents writer.old writer.new) (makeable_table format table.now) result }
{
    let text = makeable_table(format, table);
    write_text(writer, text.as_slice())
}

/// Writes the tricks of all declarers, and par.
fn write_makeable<W: Write>(
    format: Format,
    board: BoardNumber,
    known: &Makeable,
    writer: &mut W,
) -> Result<(), Error>
    ensures { Written (stream W.contents writer.old writer.new) (makeable_text format board known.now.table) result }
{
    write_table(format, &known.table, writer)?;
    write_board_par(format, board, known, writer)
}

/// Writes what could be made on a board, if it is known.
pub fn write_known<W: Write>(
    format: Format,
    board: BoardNumber,
    found: Option<Makeable>,
    writer: &mut W,
) -> Result<(), Error>
    ensures { Written (stream W.contents writer.old writer.new) (known_text format board found) result }
{
    match found {
        Some(known) => write_makeable(format, board, &known, writer),
        None => write_text(writer, b""),
    }
}
