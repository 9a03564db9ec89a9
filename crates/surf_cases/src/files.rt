//! The files that the cases name. Each text stands in one constant, which is named in few
//! functions, since a proof copies a constant wherever it is named.

/// The names and texts of the files.
pub fn files() -> &'static [(&'static str, &'static str)] {
    &FILES
}

/// The torus of 3 by 3 cells.
pub fn torus33() -> &'static str {
    TORUS33
}

/// The pillow.
pub fn pillow() -> &'static str {
    PILLOW
}

/// The pillow, cut along two edges.
pub fn pillow_cut() -> &'static str {
    PILLOW_CUT
}

/// The coloured tetrahedron, cut in full.
pub fn coloured_full() -> &'static str {
    COLOURED_FULL
}

const FILES: [(&str, &str); 21] = [
    ("tet", TET),
    ("coloured", COLOURED),
    ("torus33", TORUS33),
    ("L", SCATTERED),
    ("C", CERT),
    ("W", "3 6 7 3\n"),
    ("row", "0 1 2 0\n"),
    ("other", "3 4 5 3\n"),
    ("evidence", "null 1 6\n"),
    ("cut", PILLOW_CUT),
    ("pillow", PILLOW),
    ("ends", "1 2\n"),
    ("pinched", PINCHED),
    ("apart", APART),
    ("many", "OFF\n1000001 1 0\n"),
    ("missing", "0 1 1\n0 2 1\n0 3 1\n1 2 1\n1 3 1\n"),
    ("twice", "0 1 1\n0 2 1\n1 0 4\n"),
    ("zero", "0 1 0\n"),
    ("great", "0 1 4294967296\n"),
    ("edge", "0 4 1\n"),
    ("form", "0 1\n"),
];

const TET: &str = "OFF\n4 4 6\n0 0 0\n1 0 0\n0 1 0\n0 0 1\n3 0 1 2\n3 0 3 1\n3 0 2 3\n3 1 3 2\n";

// With CR LF, decimals, colours and the counts on the keyword's line.
const COLOURED: &str = "\
    COFF 4 4 0\r\n0.000000 0.000000 0.000000 255 0 0 255\r\n\
    1.000000 0.000000 0.000000 0 255 0 255\r\n0.000000 1.000000 0.000000 0 0 255 255\r\n\
    0.000000 0.000000 1.000000 9 9 9 255\r\n3 0 1 2 200 200 200\r\n3 0 3 1\r\n\
    3 0 2 3 200 200 200\r\n3 1 3 2\r\n";

const COLOURED_FULL: &str = "\
    COFF\n6 4 9\n0.000000 0.000000 0.000000 255 0 0 255\n0.000000 0.000000 0.000000 255 0 0 255\n\
    0.000000 0.000000 0.000000 255 0 0 255\n1.000000 0.000000 0.000000 0 255 0 255\n\
    0.000000 1.000000 0.000000 0 0 255 255\n0.000000 0.000000 1.000000 9 9 9 255\n\
    3 0 3 4 200 200 200\n3 1 5 3\n3 2 4 5 200 200 200\n3 3 5 4\n# copy 0 from 0\n\
    # copy 1 from 0\n# copy 2 from 0\n# copy 3 from 1\n# copy 4 from 2\n# copy 5 from 3\n";

// Two triangles glued along their three edges, and their cut.
const PILLOW: &str = "OFF\n3 2 3\n0 0 0\n1 0 0\n0 1 0\n3 0 1 2\n3 0 2 1\n";

const PILLOW_CUT: &str = "\
    OFF\n4 2 5\n0 0 0\n0 0 0\n1 0 0\n0 1 0\n3 0 2 3\n3 1 3 2\n# copy 0 from 0\n# copy 1 from 0\n\
    # copy 2 from 1\n# copy 3 from 2\n";

const TORUS33: &str = "\
    OFF\n9 18 27\n0 0 0\n1 0 0\n2 0 0\n3 0 0\n4 0 0\n5 0 0\n6 0 0\n7 0 0\n8 0 0\n3 0 3 4\n\
    3 0 4 1\n3 1 4 5\n3 1 5 2\n3 2 5 3\n3 2 3 0\n3 3 6 7\n3 3 7 4\n3 4 7 8\n3 4 8 5\n3 5 8 6\n\
    3 5 6 3\n3 6 0 1\n3 6 1 7\n3 7 1 2\n3 7 2 8\n3 8 2 0\n3 8 0 6\n";

// For that torus, edge `k` has 1 + (7k + 13) mod 97.
const SCATTERED: &str = "\
    0 1 14\n0 2 21\n0 3 28\n0 4 35\n0 6 42\n0 8 49\n1 2 56\n1 4 63\n1 5 70\n1 6 77\n1 7 84\n\
    2 3 91\n2 5 1\n2 7 8\n2 8 15\n3 4 22\n3 5 29\n3 6 36\n3 7 43\n4 5 50\n4 7 57\n4 8 64\n\
    5 6 71\n5 8 78\n6 7 85\n6 8 92\n7 8 2\n";

// The certificate of the loops at its vertex 0, where each edge has length 1. By hand.
const CERT: &str = "\
    SURFCERT 1 loops\ncounts 9 18 2\ntree 0\n0 -\n1 0\n1 0\n1 0\n1 0\n2 1\n1 0\n2 1\n1 0\ndual\n\
    0 -\n5 1 4\n4 4 5\n7 2 5\n6 3 5\n7 2 3\n2 3 7\n1 3 4\n2 4 7\n3 4 8\n4 5 8\n5 5 6\n4 1 6\n\
    3 6 7\n4 2 7\n3 7 8\n4 2 8\n5 6 8\nleft\n1 2\n3 6\n";

// Two tetrahedra that share a vertex, and two that share none.
const PINCHED: &str = "\
    OFF\n7 8 12\n0 0 0\n1 0 0\n2 0 0\n3 0 0\n4 0 0\n5 0 0\n6 0 0\n3 0 1 2\n3 0 3 1\n3 0 2 3\n\
    3 1 3 2\n3 0 4 5\n3 0 6 4\n3 0 5 6\n3 4 6 5\n";

const APART: &str = "\
    OFF\n8 8 12\n0 0 0\n1 0 0\n2 0 0\n3 0 0\n4 0 0\n5 0 0\n6 0 0\n7 0 0\n3 0 1 2\n3 0 3 1\n\
    3 0 2 3\n3 1 3 2\n3 4 5 6\n3 4 7 5\n3 4 6 7\n3 5 7 6\n";
