// The labelling program's text: from the bytes of a map file to an output slice. Each piece of the
// text is written into its own part of the output, and hands back where the next begins.
#![tactic(auto)]

ghost use Rattle.std.specs.Prelude.{◌+◌, ◌-◌, ◌*◌, ◌<◌, ◌≤◌, length, take, drop, ◌≡◌};
ghost use Rattle.printing.specs.Parts.{Puts};
ghost use Rattle.chart.specs.Promise.{line_room, room, Charted};
ghost use Rattle.chart.specs.Parts.{FirstLine, BitsShown, MapRoom, FileRoom};
ghost use Rattle.chart.specs.Drawing.{sign_of, row_of, picture_of};

use field::{Labelled, MOST_CROSSINGS, MOST_MARKERS, Place, SIDE, Size};
use mapfile::MOST_BYTES;
use printing::{put_line, put_long, put_refusal};
use sheets::Sheet;
use turning::turn;

// Room for the longest text: the five numbers of the first line, and SIDE rows of SIDE signs, each
// with its LF.
pub const ROOM: usize = 5 * printing::NUMBER + SIDE * (SIDE + 1);

// Writes the first line: width, height, rock crossings, shut crossings, groups.
fn put_first(out: &mut [u8], map: Size, found: Labelled) -> usize
    requires { line_room ≤ length out.old }
    ensures { Puts (FirstLine map.w map.h found) out.old 0 out.new result }
{
    put_line(
        out,
        0,
        &[map.w, map.h, found.rocks, found.shut, found.groups],
    )
}

// The sign of a label: . open, # rock, o shut.
fn sign(label: u8) -> u8
    ensures { result ≡ sign_of label }
{
    match label {
        0 => b'.',
        1 => b'#',
        _ => b'o',
    }
}

// Draws row y of the map into its own part of the output, with LF after it.
fn put_row(out: &mut [u8], s: Sheet<'_>, y: usize)
    requires on_map { y < s.map.h }
    requires room { length out.old ≡ s.map.w + 1 }
    ensures { out.new ≡ row_of s.entry.cells.now s.entry.map.w y }
{
    for x in 0..s.map.w {
        out[x] = sign(s.at(Place { x, y }));
    }
    out[s.map.w] = b'\n';
}

// Draws the rows from the north: each is lent its own part of the output.
#[tactic(auto, unfolding(crate::specs::Drawing::picture_of))]
fn put_rows(out: &mut [u8], s: Sheet<'_>)
    requires { length out.old ≡ s.map.h * (s.map.w + 1) }
    ensures { out.new ≡ picture_of s.entry.cells.now s.entry.map.w s.entry.map.h }
{
    let put = move |r: usize, part: &mut [u8]|
        requires { (r < s.map.h) × (length part.now ≡ s.map.w + 1) }
        ensures { part.exit.now ≡ row_of s.entry.cells.now s.entry.map.w (s.entry.map.h - (r + 1)) }
    { put_row(part, s, s.map.h - (r + 1)) };
    packing::each_row(out, s.map.w + 1, s.map.h, put);
}

// Stamps a raster's bits on a lent sheet of the map's size, labels it, and writes the map's text:
// the first line, then the rows.
fn put_map(out: &mut [u8], sheet: &mut [u8], bits: &[u8], map: Size) -> usize
    requires { MapRoom map.w map.h bits.now sheet.old out.old }
    ensures { Puts (BitsShown map.w map.h bits.now) out.old 0 out.new result }
{
    turn(bits, map, sheet);
    let found = labels::label(sheet, map);
    let start = put_first(out, map, found);
    let end = start + map.h * (map.w + 1);
    put_rows(&mut out[start..end], Sheet { cells: sheet, map });
    end
}

// Writes the text for a map file of no more bytes than the program takes.
fn put_file(out: &mut [u8], src: &[u8]) -> usize
    requires { FileRoom src.now out.old }
    ensures { Puts (Charted src.now) out.old 0 out.new result }
{
    let mut bits = [0u8; MOST_CROSSINGS];
    match reader::read(src, MOST_MARKERS, &mut bits) {
        Ok(reading) => {
            let mut sheet = [0u8; MOST_CROSSINGS];
            let size = reading.map.h * reading.map.w;
            put_map(out, &mut sheet[..size], &bits, reading.map)
        }
        Err(refusal) => put_refusal(out, usize::from(refusal.number())),
    }
}

// Writes the text for a map file to the front of the output, and hands back its length. The rest of
// the output stays.
pub fn chart(src: &[u8], out: &mut [u8; ROOM]) -> usize
    ensures text { (result ≤ room) × Charted src.now (take result out.new) }
    ensures rest { drop result out.new ≡ drop result out.old }
{
    if MOST_BYTES < src.len() {
        return put_long(out);
    }
    put_file(out, src)
}
