// Map files: PBM as document 01 bounds it. The grammar stands in specs/; the reader and the writer
// are crates above.
#![tactic(auto)]

// "A program takes at most 65,536 input bytes"; "The 65,536 bytes now bound each map" (document 02,
// Req 05).
pub const MOST_BYTES: usize = 65536;
