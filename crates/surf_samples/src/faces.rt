//! Tables of faces. Each constant is named in one function alone, since a proof copies a constant
//! wherever it is named.

/// Triangles, by their corners.
pub type Faces = &'static [(u32, u32, u32)];

/// Two triangles with the same sides, on 3 vertices.
pub fn pillow() -> Faces {
    &PILLOW
}

/// The tetrahedron: four triangles, on 4 vertices.
pub fn tetrahedron() -> Faces {
    &TETRAHEDRON
}

/// The tetrahedron without its last face.
pub fn open() -> Faces {
    &OPEN
}

/// The projective plane of six vertices.
pub fn projective() -> Faces {
    &PROJECTIVE
}

/// The torus of Möbius and Császár, of seven vertices.
pub fn seven() -> Faces {
    &SEVEN
}

/// The torus of three rows and three columns of vertices, numbered row by row, with two triangles
/// in each cell.
pub fn torus() -> Faces {
    &TORUS
}

const PILLOW: [(u32, u32, u32); 2] = [(0, 1, 2), (0, 2, 1)];

const TETRAHEDRON: [(u32, u32, u32); 4] = [(0, 1, 2), (0, 3, 1), (0, 2, 3), (1, 3, 2)];

const OPEN: [(u32, u32, u32); 3] = [(0, 1, 2), (0, 3, 1), (0, 2, 3)];

const PROJECTIVE: [(u32, u32, u32); 10] = [
    (0, 1, 2),
    (0, 2, 3),
    (0, 3, 4),
    (0, 4, 5),
    (0, 1, 5),
    (1, 2, 4),
    (2, 3, 5),
    (1, 3, 4),
    (2, 4, 5),
    (1, 3, 5),
];

const SEVEN: [(u32, u32, u32); 14] = [
    (0, 1, 3),
    (0, 3, 2),
    (1, 2, 4),
    (1, 4, 3),
    (2, 3, 5),
    (2, 5, 4),
    (3, 4, 6),
    (3, 6, 5),
    (4, 5, 0),
    (4, 0, 6),
    (5, 6, 1),
    (5, 1, 0),
    (6, 0, 2),
    (6, 2, 1),
];

const TORUS: [(u32, u32, u32); 18] = [
    (0, 3, 4),
    (0, 4, 1),
    (1, 4, 5),
    (1, 5, 2),
    (2, 5, 3),
    (2, 3, 0),
    (3, 6, 7),
    (3, 7, 4),
    (4, 7, 8),
    (4, 8, 5),
    (5, 8, 6),
    (5, 6, 3),
    (6, 0, 1),
    (6, 1, 7),
    (7, 1, 2),
    (7, 2, 8),
    (8, 2, 0),
    (8, 0, 6),
];
