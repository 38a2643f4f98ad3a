// The names of the calls that a record can have, as numbers (`text::name`).

// "abs_ ", "min_ ", "max_ ", "sqrt ": the four float functions.
pub const ABS: u64 = 0x61_6273_5f20;

pub const MIN: u64 = 0x6d_696e_5f20;

pub const MAX: u64 = 0x6d_6178_5f20;

pub const SQRT: u64 = 0x73_7172_7420;

// "mnmx ", "dist ", "ptat ", "para ", "arc_ ": min_max, dist_squared, point_from_parametric, parametric_from_point,
// seg_arc_radius_and_center.
pub const MIN_MAX: u64 = 0x6d_6e6d_7820;

pub const DIST_SQUARED: u64 = 0x64_6973_7420;

pub const POINT_FROM_PARAMETRIC: u64 = 0x70_7461_7420;

pub const PARAMETRIC_FROM_POINT: u64 = 0x70_6172_6120;

pub const SEG_ARC: u64 = 0x61_7263_5f20;

// "lnln ", "lncr ", "crcr ", "pair ": line_line_intr, line_circle_intr, circle_circle_intr, pline_seg_intr.
pub const LINE_LINE: u64 = 0x6c_6e6c_6e20;

pub const LINE_CIRCLE: u64 = 0x6c_6e63_7220;

pub const CIRCLE_CIRCLE: u64 = 0x63_7263_7220;

pub const PLINE_SEG: u64 = 0x70_6169_7220;
