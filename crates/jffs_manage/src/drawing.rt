//! The map of a volume, as text and as a picture.

use crate::mapping::{CELLS, Map, MapCell, MapTotals, Part, Row};
use jffs_flash::MAX_SECTORS;
use std::io;
use std::io::Write;

/// How many places a sector's number takes in a line: as many as the greatest has digits.
const NUMBER_WIDTH: usize = if MAX_SECTORS <= 100 { 2 } else { 3 };

const _: () = prove!(MAX_SECTORS <= 1000);

/// How wide and how high a cell of the picture is, in its units.
const CELL_WIDTH: u32 = 8;

const CELL_HEIGHT: u32 = 14;
/// From one row of the picture to the next.
const ROW_HEIGHT: u32 = 16;
/// Where the cells of a row begin in the picture.
const LEFT: u32 = 72;
/// What ends a colour on a terminal.
const PLAIN: &str = "\u{1b}[0m";

impl MapCell {
    fn letter(self) -> &'static str {
        match self {
            MapCell::Live => "#",
            MapCell::Dead => "x",
            MapCell::Unused => "-",
            MapCell::Erased => ".",
        }
    }

    fn word(self) -> &'static str {
        match self {
            MapCell::Live => "live",
            MapCell::Dead => "dead",
            MapCell::Unused => "unused",
            MapCell::Erased => "erased",
        }
    }

    /// What begins its colour on a terminal.
    fn colour(self) -> &'static str {
        match self {
            MapCell::Live => "\u{1b}[32m",
            MapCell::Dead => "\u{1b}[31m",
            MapCell::Unused => "\u{1b}[33m",
            MapCell::Erased => "\u{1b}[2m",
        }
    }

    /// Its colour in a picture.
    fn fill(self) -> &'static str {
        match self {
            MapCell::Live => "#2e7d32",
            MapCell::Dead => "#c62828",
            MapCell::Unused => "#f9a825",
            MapCell::Erased => "#dddddd",
        }
    }
}

impl Part {
    fn word(self) -> &'static str {
        match self {
            Part::Tail => "tail",
            Part::Next => "next",
            Part::Other => "",
        }
    }
}

/// Writes a map, a row for each sector: its number, `tail` or `next` if it is the tail or is erased
/// next, and its cells; then what the letters mean, and how many bytes hold what. `coloured` for a
/// terminal.
pub(crate) fn draw<W: Write>(map: &Map, coloured: bool, out: &mut W) -> io::Result<()> {
    for row in map.rows.iter() {
        write!(out, "{:>NUMBER_WIDTH$} {:<4} ", row.sector, row.part.word())?;
        draw_cells(row, coloured, out)?;
    }
    let MapTotals {
        live,
        dead,
        unused,
        erased,
    } = map.totals;
    writeln!(
        out,
        "# live, x dead, - unused, . erased; a cell is {} bytes",
        map.cell_len
    )?;
    writeln!(
        out,
        "{live} bytes live, {dead} dead, {unused} unused, {erased} erased"
    )
}

/// Writes the cells of a row, and ends its line.
fn draw_cells<W: Write>(row: &Row, coloured: bool, out: &mut W) -> io::Result<()> {
    for run in row.cells.chunk_by(|a, b| a == b) {
        if let Some(held) = run.first() {
            if coloured {
                out.write_all(held.colour().as_bytes())?;
            }
        }
        for held in run {
            out.write_all(held.letter().as_bytes())?;
        }
        if coloured {
            out.write_all(PLAIN.as_bytes())?;
        }
    }
    out.write_all(b"\n")
}

/// Writes a map as a picture, in SVG: a row for each sector, as `draw` has them, and below them
/// what the colours mean.
pub(crate) fn draw_svg<W: Write>(map: &Map, out: &mut W) -> io::Result<()> {
    let width = LEFT + CELLS as u32 * CELL_WIDTH + CELL_WIDTH;
    let rows = u32::try_from(map.rows.len()).unwrap_or(u32::MAX);
    let height = rows.saturating_add(2).saturating_mul(ROW_HEIGHT);
    writeln!(
        out,
        "<svg xmlns=\"http://www.w3.org/2000/svg\" width=\"{width}\" height=\"{height}\" \
        font-family=\"monospace\" font-size=\"12\">"
    )?;
    for row in map.rows.iter() {
        let top = row.sector.saturating_mul(ROW_HEIGHT);
        draw_text(8, top, row.part.word(), Some(row.sector), out)?;
        let mut left = LEFT;
        for run in row.cells.chunk_by(|a, b| a == b) {
            let wide = CELL_WIDTH.saturating_mul(u32::try_from(run.len()).unwrap_or(u32::MAX));
            if let Some(held) = run.first() {
                draw_rect(left, top, wide, *held, out)?;
            }
            left = left.saturating_add(wide);
        }
    }
    draw_legend(rows.saturating_add(1).saturating_mul(ROW_HEIGHT), out)?;
    out.write_all(b"</svg>\n")
}

/// Writes what the colours mean, in a row of a picture.
fn draw_legend<W: Write>(top: u32, out: &mut W) -> io::Result<()> {
    let mut left = LEFT;
    for held in [
        MapCell::Live,
        MapCell::Dead,
        MapCell::Unused,
        MapCell::Erased,
    ] {
        draw_rect(left, top, CELL_WIDTH, held, out)?;
        draw_text(left.saturating_add(16), top, held.word(), None, out)?;
        left = left.saturating_add(96);
    }
    Ok(())
}

fn draw_rect<W: Write>(
    left: u32,
    top: u32,
    width: u32,
    held: MapCell,
    out: &mut W,
) -> io::Result<()> {
    writeln!(
        out,
        "<rect x=\"{left}\" y=\"{top}\" width=\"{width}\" height=\"{CELL_HEIGHT}\" fill=\"{}\"/>",
        held.fill()
    )
}

/// Writes a word into a picture, after a number if there is one.
fn draw_text<W: Write>(
    left: u32,
    top: u32,
    word: &str,
    number: Option<u32>,
    out: &mut W,
) -> io::Result<()> {
    let line = top.saturating_add(12);
    write!(out, "<text x=\"{left}\" y=\"{line}\">")?;
    if let Some(number) = number {
        write!(out, "{number} ")?;
    }
    writeln!(out, "{word}</text>")
}
