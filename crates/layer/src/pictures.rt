// The two picture calls, for the field viewer: a sheet of distances written as raw PGM, and a
// picture read back into a sheet. No marker list is lent: a sheet is only sixteen-bit numbers here.
ghost use Rattle.calls.specs.PictureCalls.{WriteSheetCall, ReadSheetCall};
ghost use Rattle.calls.specs.Told.{sheet_written, sheet_read};

use field::{Refusal, Size};

// Writes a sheet as a picture, P5, two bytes a crossing. Hands back the number of bytes written, or
// the refusal: 1, 2 or 17. Bytes past the end stay, and a refusal changes none.
pub fn bodkin_write_sheet(
    sheet: &[u16],
    w: usize,
    h: usize,
    out: &mut [u8],
) -> Result<usize, Refusal>
    ensures { WriteSheetCall sheet.now w h out.old out.new (sheet_written result) }
{
    picturing::write(sheet, w, h, out)
}

// Reads a picture into a sheet of its size, by crossing number: one of two bytes a crossing, or an
// old one of one byte. Hands back width and height, or the refusal: 12, 13, 1, 18, 2, 14 or 15,
// which changes no number of the sheet.
pub fn bodkin_read_sheet(src: &[u8], sheet: &mut [u16]) -> Result<Size, Refusal>
    ensures { ReadSheetCall src.now sheet.old sheet.new (sheet_read result) }
{
    picturing::read(src, sheet)
}
