// Plane geometry on f64, on which the crossing kernels are built: points, vertices, comparisons with a tolerance, parameters
// along a segment, an arc's radius and centre. Nothing here checks its numbers: each function answers for every input, NaN and
// infinities too. The file in specs/ with the name of the module says how.
#![tactic(auto)]

pub mod base_math;
pub mod fuzzy;
pub mod pline_seg;
pub mod pline_vertex;
pub mod vector2;
