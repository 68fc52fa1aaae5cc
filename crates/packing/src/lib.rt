// Packed rows of a map, from a sheet on which the rocks are stamped: "each row is packed eight
// crossings to a byte, highest bit westmost, 1 a rock". And `each_row`, by which every raster and
// every sheet is written row by row.
#![tactic(auto)]

ghost use Rattle.std.specs.Prelude.{◌≡◌, ℕ, ◌+◌, ◌-◌, ◌*◌, ◌<◌, List, length};
ghost use denote.Ref.{MutBor};
ghost use Rattle.packing.specs.Packing.{RowIn, ByteIn, RowRoom, pieces, rock_bit, byte_of, row_of, rows_of};
ghost use Rattle.mapfile.specs.Raster.{row_bytes};

use sheets::Sheet;

// Writes a raster of h rows of `row` numbers each: row r is lent its own part of the output, and
// what `put` leaves there is row r of the raster. The loop has the row's number, since a proof
// knows nothing of what is written through `chunks_exact_mut`.
pub fn each_row<T, F: Fn(usize, &mut [T])>(out: &mut [T], row: usize, h: usize, put: F)
    ghost rows: { ℕ → List T }
    requires room { length out.old ≡ h * row }
    requires may { (r : ℕ) (p : MutBor (List T)) → r < h → length p.now ≡ row → F.pre put r p }
    requires does { (r : ℕ) (p : MutBor (List T)) (q : MutBor (List T)) → r < h → length p.now ≡ row → F.post put r p tt q → q.now ≡ rows r }
    ensures { out.new ≡ pieces h rows }
{
    for r in 0..h {
        let a = r * row;
        put(r, &mut out[a..a + row]);
    }
}

// The bit of column x of a row of w crossings, the first of which has the number `from`: 1 at a
// rock, 0 at none and past the row's end, at a pad bit.
fn rock_bit(s: &[u8], from: usize, w: usize, x: usize) -> u8
    requires { RowIn s.now from w }
    ensures { result ≡ rock_bit s.now from w x }
{
    u8::from(x < w && s[from + x] != 0)
}

// Eight crossings of a row in a byte, from column x on, the westmost in the highest bit: each bit
// doubles those before it.
fn pack(s: &[u8], from: usize, w: usize, x: usize) -> u8
    requires { ByteIn s.now from w x }
    ensures { result ≡ byte_of s.now from w x }
{
    let mut b = 0;
    for j in 0..8 {
        b = b * 2 + rock_bit(s, from, w, x + j);
    }
    b
}

// Row y of the map, packed, into its own part of the output.
fn write_row(out: &mut [u8], s: &[u8], w: usize, y: usize)
    requires { RowRoom s.now w y out.old }
    ensures { out.new ≡ row_of s.now w y }
{
    let from = y * w;
    for (k, b) in out.iter_mut().enumerate() {
        *b = pack(s, from, w, k * 8);
    }
}

// The packed rows, the northmost first: raster row r is row h - (r + 1) of the map.
#[tactic(auto, unfolding(mapfile::specs::Raster::row_bytes, crate::specs::Packing::rows_of))]
pub fn write_rows(out: &mut [u8], s: Sheet<'_>)
    requires { length out.old ≡ s.map.h * row_bytes s.map.w }
    ensures { out.new ≡ rows_of s.entry.cells.now s.entry.map.w s.entry.map.h }
{
    let put = move |r: usize, part: &mut [u8]|
        requires { (r < s.map.h) × (length part.now ≡ row_bytes s.map.w) × (length s.cells.now ≡ s.map.h * s.map.w) }
        ensures { part.exit.now ≡ row_of s.entry.cells.now s.entry.map.w (s.entry.map.h - (r + 1)) }
    { write_row(part, s.cells, s.map.w, s.map.h - (r + 1)) };
    each_row(out, (s.map.w + 7) / 8, s.map.h, put);
}
