// What the test of an arc's sweep finds of a point, and whether the point counts by it.
ghost use Rattle.std.specs.Prelude.{◌≡◌};
ghost use Rattle.arcs.specs.ArcSweep as sweep;

// Where a point lies for a sweep: outside, or inside by the first rule that says yes.
#[derive(Clone, Copy)]
pub enum SweepFinding {
    // No rule says yes.
    Outside,
    // Nearer to the centre than epsilon, where the point has no clear direction.
    NearCenter,
    // Between the two edges, or on one of them.
    Inside,
    // Beside the edge at the arc's start, by less than epsilon.
    NearStart,
    // Beside the edge at the arc's end, by less than epsilon.
    NearEnd,
}

impl SweepFinding {
    // Whether a rule says yes, so that the point counts.
    pub fn is_yes(self) -> bool
        ensures { result ≡ sweep.is_yes self }
    {
        match self {
            SweepFinding::Outside => false,
            SweepFinding::NearCenter => true,
            SweepFinding::Inside => true,
            SweepFinding::NearStart => true,
            SweepFinding::NearEnd => true,
        }
    }
}
