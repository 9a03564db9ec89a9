//! Texts of lengths.

const SCATTERED: &str = "\
    0 1 14\n0 2 21\n0 3 28\n0 4 35\n0 6 42\n0 8 49\n1 2 56\n1 4 63\n1 5 70\n1 6 77\n1 7 84\n\
    2 3 91\n2 5 1\n2 7 8\n2 8 15\n3 4 22\n3 5 29\n3 6 36\n3 7 43\n4 5 50\n4 7 57\n4 8 64\n\
    5 6 71\n5 8 78\n6 7 85\n6 8 92\n7 8 2\n";

/// A length for each edge of `torus`, all different: one more than `7 k + 13` modulo 97 for edge
/// `k`.
pub fn scattered() -> &'static str {
    SCATTERED
}

/// Length 1 for each edge.
pub fn unit() -> &'static str {
    "SURFLEN 2\ndefault 1\n"
}
