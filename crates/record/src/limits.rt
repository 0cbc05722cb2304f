// The most bytes of a sheet.
pub const LONGEST_SHEET: usize = 65536;
