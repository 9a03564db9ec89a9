//! The texts of certificates for the pillow. Each stands in a function, since a proof copies a
//! constant wherever it is named.

/// A certificate of loops at vertex 0, of which there are none.
pub fn loops() -> &'static str {
    "SURFCERT 1 loops\ncounts 3 2 0\ntree 0\n0 -\n1 0\n1 0\ndual\n0 -\n1 1 2\nleft\n"
}

/// A certificate of a basis, which has no cycle.
pub fn basis() -> &'static str {
    "\
    SURFCERT 1 basis\ncounts 3 2 0\ntree 0\n0 -\n1 0\n1 0\ntree 1\n1 1\n0 -\n1 1\n\
    tree 2\n1 2\n1 2\n0 -\ndual\n0 -\n1 1 2\nleft\ncycles\n"
}
