// What is told of a computed point and an arc.
ghost use Rattle.std.specs.Prelude.{[], ◌≡◌};
ghost use Rattle.findings.specs.Finding as finding;

use arcs::sweep_finding::SweepFinding;
use plane::vector2::Vector2;

// What the test of the sweep found, or why there is nothing to tell.
#[derive(Clone, Copy)]
pub enum Finding {
    // No rule of the sweep said yes.
    Outside,
    // Nearer to the arc's centre than epsilon.
    NearCenter,
    // Between the sweep's two edges, or on one of them.
    Inside,
    // Beside the ray from the centre through the arc's first vertex, by less than epsilon.
    NearStart,
    // Beside the ray from the centre through the arc's last vertex, by less than epsilon.
    NearEnd,
    // An end of a segment stands in the answer in the point's place.
    EndPoint,
    // The Rust does not come to this test, or there is no such point, or the segment is a line.
    NotTested,
}

// What is told of the first and of the second computed point, for each segment.
#[derive(Clone, Copy)]
pub struct Findings {
    pub first_v: Finding,
    pub first_u: Finding,
    pub second_v: Finding,
    pub second_u: Finding,
}

// A computed point of a line and an arc, and what is told of it for the arc.
#[derive(Clone, Copy)]
pub struct Tested {
    pub point: Vector2,
    pub finding: Finding,
}

// The two computed points of a line and an arc.
#[derive(Clone, Copy)]
pub struct TwoTested {
    pub first: Tested,
    pub second: Tested,
}

// A computed point of two segments, and what is told of it for each.
#[derive(Clone, Copy)]
pub struct Computed {
    pub point: Vector2,
    pub v: Finding,
    pub u: Finding,
}

// The two computed points of two arcs.
#[derive(Clone, Copy)]
pub struct TwoComputed {
    pub first: Computed,
    pub second: Computed,
}

impl Finding {
    // Whether a rule of the sweep said yes.
    pub fn counts(self) -> bool
        ensures { result ≡ finding.counts self }
    {
        match self {
            Finding::Outside => false,
            Finding::NearCenter => true,
            Finding::Inside => true,
            Finding::NearStart => true,
            Finding::NearEnd => true,
            Finding::EndPoint => false,
            Finding::NotTested => false,
        }
    }

    // Its number, as callers in C know it.
    pub fn number(self) -> u64
        ensures { result ≡ finding.number self }
    {
        self as u64
    }
}

// What the test of a sweep found.
impl From<SweepFinding> for Finding {
    ghost from_gives = { λ found result. result ≡ finding.of_sweep found };

    fn from(found: SweepFinding) -> Finding {
        match found {
            SweepFinding::Outside => Finding::Outside,
            SweepFinding::NearCenter => Finding::NearCenter,
            SweepFinding::Inside => Finding::Inside,
            SweepFinding::NearStart => Finding::NearStart,
            SweepFinding::NearEnd => Finding::NearEnd,
        }
    }
}

impl Findings {
    // What is told if nothing was computed.
    pub fn none() -> Findings
        ensures { result ≡ finding.findings_of [] }
    {
        Findings {
            first_v: Finding::NotTested,
            first_u: Finding::NotTested,
            second_v: Finding::NotTested,
            second_u: Finding::NotTested,
        }
    }
}
