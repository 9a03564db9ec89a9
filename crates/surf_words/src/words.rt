//! The words of the command line.
ghost use Rattle.std.specs.Prelude.{◌≡◌, [], ◌∷◌, Some, option_map, option_and_then};
ghost use Rattle.surf_words.specs.Shapes.{shape_named};
ghost use Rattle.surf_words.specs.Words.{texts, word_number, few_decimals, Asks, IsAsked};
ghost use Rattle.surf_words.specs.Words.{dist, loops, certify_loops, cut, fully, trimmed, through};
ghost use Rattle.surf_words.specs.Words.{lengths as lengths_request, gen_shape, tried};

use crate::decimals::Decimals;
use crate::shape::Shape;
use surf_text::read_whole;

/// A row of the command table, with the words that are given in it.
#[derive(Clone, Copy, Debug)]
pub enum Command<'w> {
    Help,
    Version,
    Info {
        mesh: &'w str,
    },
    Dist {
        mesh: &'w str,
        lengths: &'w str,
        base: u32,
    },
    Loops {
        mesh: &'w str,
        lengths: &'w str,
        base: u32,
    },
    Basis {
        mesh: &'w str,
        lengths: &'w str,
    },
    Cycle {
        mesh: &'w str,
        lengths: &'w str,
    },
    LargeBasis {
        mesh: &'w str,
        lengths: &'w str,
    },
    LargeCycle {
        mesh: &'w str,
        lengths: &'w str,
    },
    CutFull {
        mesh: &'w str,
        lengths: &'w str,
        base: u32,
    },
    CutTrimmed {
        mesh: &'w str,
        lengths: &'w str,
        base: u32,
    },
    CutThrough {
        mesh: &'w str,
        lengths: &'w str,
        base: u32,
        points: &'w str,
    },
    Sew {
        mesh: &'w str,
    },
    Disc {
        mesh: &'w str,
    },
    Class {
        mesh: &'w str,
        walk: &'w str,
    },
    Same {
        mesh: &'w str,
        first: &'w str,
        second: &'w str,
    },
    Confirm {
        mesh: &'w str,
        walk: &'w str,
        cert: &'w str,
    },
    Shortest {
        mesh: &'w str,
        lengths: &'w str,
        walk: &'w str,
    },
    LargeShortest {
        mesh: &'w str,
        lengths: &'w str,
        walk: &'w str,
    },
    CertifyLoops {
        mesh: &'w str,
        lengths: &'w str,
        base: u32,
    },
    CertifyBasis {
        mesh: &'w str,
        lengths: &'w str,
    },
    Check {
        mesh: &'w str,
        lengths: &'w str,
        cert: &'w str,
    },
    Lengths {
        mesh: &'w str,
        decimals: Decimals,
    },
    Gen {
        shape: Shape,
    },
    Try {
        shape: Shape,
        scatter: u32,
    },
}

/// How the program is called, line by line.
pub const HELP: &str = "surf: shortest loops, least bases and cuts of closed surface meshes

usage: surf info M                counts, Euler characteristic, genus or crosscaps
       surf dist M L x            the distance of each vertex from vertex x
       surf loops M L x           a shortest system of independent loops at x
       surf basis M L             a shortest homology basis (mod 2)
       surf cycle M L             a shortest cycle that doesn't separate the surface
       surf basis M L large       the same as basis M L on a mesh of any size
       surf cycle M L large       the same as cycle M L on a mesh of any size
       surf cut M L x full        the mesh cut into one disc
       surf cut M L x trim        the same with the cut's loose ends left uncut
       surf cut M L x through P   the mesh cut into one disc through the vertices of P
       surf sew M                 the mesh that was cut, from what cut wrote
       surf disc M                whether a mesh is a disc
       surf class M W             whether a closed walk is a boundary, with evidence
       surf same M W W2           whether two closed walks are homologous (mod 2)
       surf confirm M W C         whether the evidence that class wrote is right
       surf shortest M L W        a shortest closed walk homologous to W
       surf shortest M L W large  the same as shortest M L W on larger meshes
       surf certify M L x         a certificate of loops at vertex x
       surf certify M L           a certificate of a basis
       surf check M L C           whether a certificate is valid, and its total
       surf lengths M k           the lengths of the edges from coordinates, in units of 10^-k
       surf gen torus a b         a torus of a by b squares
       surf gen chain g a b       a chain of g such tori
       surf try torus a b s       a summary of a torus with lengths scattered by s
       surf try chain g a b s     the same of a chain
       surf --help | --version

files: M  a mesh in OFF, one vertex or face a line
       L  the word unit, or a file with a line u v n for each edge: its ends and its length
       C  what certify or class wrote
       W  a closed walk: its vertices on one line, the first at the end again
       P  vertices on one line
numbers: x a vertex from 0; k from 0 to 9; lengths whole, from 1 to 4294967295

status: 0 done, 1 no, 2 words, 3 mesh text, 4 no surface, 5 lengths, 6 limit, 7 vertex,
        8 certificate or evidence text, 9 file, 10 output, 11 memory, 12 coordinates,
        13 walk, 14 copies, 15 vertices; from 2 on with a line on standard error
limits: 1000000 vertices, 2000000 faces, 1024 loops; 20000 vertices for basis and cycle,
        1000 for certify M L; 8 loops for shortest, and 65536 vertices times 2^loops,
        or 16 and 16777216 with large
example: surf lengths eight.off 6 > eight.len; surf basis eight.off eight.len
manual: docs/guide.md of the repository
";

/// The program's name and version.
pub const VERSION: &str = "surf 1.0.0\n";

// A number word: digits of a value at most 4,294,967,295.
fn number_of(word: &str) -> Option<u32>
    ensures { result ≡ word_number word.now }
{
    match read_whole(word.as_bytes()) {
        Some(n) if n <= u32::MAX as u64 => Some(n as u32),
        _ => None,
    }
}

fn dist<'w>(mesh: &'w str, lengths: &'w str, base: &str) -> Option<Command<'w>>
    ensures { IsAsked result (option_map (dist mesh.now lengths.now) (word_number base.now)) }
{
    Some(Command::Dist {
        mesh,
        lengths,
        base: number_of(base)?,
    })
}

fn loops<'w>(mesh: &'w str, lengths: &'w str, base: &str) -> Option<Command<'w>>
    ensures { IsAsked result (option_map (loops mesh.now lengths.now) (word_number base.now)) }
{
    Some(Command::Loops {
        mesh,
        lengths,
        base: number_of(base)?,
    })
}

fn certify_loops<'w>(mesh: &'w str, lengths: &'w str, base: &str) -> Option<Command<'w>>
    ensures { IsAsked result (option_map (certify_loops mesh.now lengths.now) (word_number base.now)) }
{
    Some(Command::CertifyLoops {
        mesh,
        lengths,
        base: number_of(base)?,
    })
}

fn cut_full<'w>(mesh: &'w str, lengths: &'w str, base: &str) -> Option<Command<'w>>
    ensures { IsAsked result (option_map (cut fully mesh.now lengths.now) (word_number base.now)) }
{
    Some(Command::CutFull {
        mesh,
        lengths,
        base: number_of(base)?,
    })
}

fn cut_trimmed<'w>(mesh: &'w str, lengths: &'w str, base: &str) -> Option<Command<'w>>
    ensures { IsAsked result (option_map (cut trimmed mesh.now lengths.now) (word_number base.now)) }
{
    Some(Command::CutTrimmed {
        mesh,
        lengths,
        base: number_of(base)?,
    })
}

fn cut_through<'w>(
    mesh: &'w str,
    lengths: &'w str,
    base: &str,
    points: &'w str,
) -> Option<Command<'w>>
    ensures { IsAsked result (option_map (cut (through points.now) mesh.now lengths.now) (word_number base.now)) }
{
    Some(Command::CutThrough {
        mesh,
        lengths,
        base: number_of(base)?,
        points,
    })
}

fn torus_of(rows: &str, columns: &str) -> Option<Shape>
    ensures { result ≡ shape_named 3 (Some 1) (word_number rows.now) (word_number columns.now) }
{
    Shape::torus(number_of(rows)?, number_of(columns)?)
}

fn chain_of(tori: &str, rows: &str, columns: &str) -> Option<Shape>
    ensures { result ≡ shape_named 4 (word_number tori.now) (word_number rows.now)
        (word_number columns.now) }
{
    Shape::chain(number_of(tori)?, number_of(rows)?, number_of(columns)?)
}

fn gen_shape<'w>(shape: Option<Shape>) -> Option<Command<'w>>
    ensures { IsAsked result (option_map gen_shape shape) }
{
    Some(Command::Gen { shape: shape? })
}

fn try_shape<'w>(shape: Option<Shape>, scatter: &str) -> Option<Command<'w>>
    ensures { IsAsked result (tried shape (word_number scatter.now)) }
{
    Some(Command::Try {
        shape: shape?,
        scatter: number_of(scatter)?,
    })
}

// The decimals of a unit of length.
fn decimals_of(word: &str) -> Option<Decimals>
    ensures { result ≡ option_and_then few_decimals (word_number word.now) }
{
    Decimals::new(number_of(word)?)
}

fn lengths<'w>(mesh: &'w str, decimals: &str) -> Option<Command<'w>>
    ensures { IsAsked result (option_map (lengths_request mesh.now)
        (option_and_then few_decimals (word_number decimals.now))) }
{
    Some(Command::Lengths {
        mesh,
        decimals: decimals_of(decimals)?,
    })
}

#[tactic(auto, unfolding(crate::specs::Words::request_of))]
fn on_one<'w>(word: &str) -> Option<Command<'w>>
    ensures { Asks result (word.now ∷ []) }
{
    match word {
        "--help" => Some(Command::Help),
        "--version" => Some(Command::Version),
        _ => None,
    }
}

#[tactic(auto, unfolding(crate::specs::Words::request_of))]
fn on_two<'w>(word: &str, mesh: &'w str) -> Option<Command<'w>>
    ensures { Asks result (word.now ∷ mesh.now ∷ []) }
{
    match word {
        "info" => Some(Command::Info { mesh }),
        "sew" => Some(Command::Sew { mesh }),
        "disc" => Some(Command::Disc { mesh }),
        _ => None,
    }
}

#[tactic(auto, unfolding(crate::specs::Words::request_of))]
fn on_three<'w>(word: &str, mesh: &'w str, third: &'w str) -> Option<Command<'w>>
    ensures { Asks result (word.now ∷ mesh.now ∷ third.now ∷ []) }
{
    match word {
        "basis" => Some(Command::Basis {
            mesh,
            lengths: third,
        }),
        "cycle" => Some(Command::Cycle {
            mesh,
            lengths: third,
        }),
        "class" => Some(Command::Class { mesh, walk: third }),
        "certify" => Some(Command::CertifyBasis {
            mesh,
            lengths: third,
        }),
        "lengths" => lengths(mesh, third),
        _ => None,
    }
}

#[tactic(auto, unfolding(crate::specs::Words::request_of))]
fn on_four<'w>(word: &str, second: &'w str, third: &'w str, fourth: &'w str) -> Option<Command<'w>>
    ensures { Asks result (word.now ∷ second.now ∷ third.now ∷ fourth.now ∷ []) }
{
    match word {
        "dist" => dist(second, third, fourth),
        "loops" => loops(second, third, fourth),
        "same" => Some(Command::Same {
            mesh: second,
            first: third,
            second: fourth,
        }),
        "confirm" => Some(Command::Confirm {
            mesh: second,
            walk: third,
            cert: fourth,
        }),
        "shortest" => Some(Command::Shortest {
            mesh: second,
            lengths: third,
            walk: fourth,
        }),
        "certify" => certify_loops(second, third, fourth),
        "check" => Some(Command::Check {
            mesh: second,
            lengths: third,
            cert: fourth,
        }),
        "basis" => {
            if fourth != "large" {
                return None;
            }
            Some(Command::LargeBasis {
                mesh: second,
                lengths: third,
            })
        }
        "cycle" => {
            if fourth != "large" {
                return None;
            }
            Some(Command::LargeCycle {
                mesh: second,
                lengths: third,
            })
        }
        "gen" => {
            if second != "torus" {
                return None;
            }
            gen_shape(torus_of(third, fourth))
        }
        _ => None,
    }
}

#[tactic(auto, unfolding(crate::specs::Words::request_of))]
fn on_five<'w>(
    word: &str,
    second: &'w str,
    third: &'w str,
    fourth: &'w str,
    fifth: &str,
) -> Option<Command<'w>>
    ensures { Asks result (word.now ∷ second.now ∷ third.now ∷ fourth.now ∷ fifth.now ∷ []) }
{
    if word == "shortest" && fifth == "large" {
        return Some(Command::LargeShortest {
            mesh: second,
            lengths: third,
            walk: fourth,
        });
    }
    if word == "cut" {
        return match fifth {
            "full" => cut_full(second, third, fourth),
            "trim" => cut_trimmed(second, third, fourth),
            _ => None,
        };
    }
    if word == "gen" && second == "chain" {
        return gen_shape(chain_of(third, fourth, fifth));
    }
    if word == "try" && second == "torus" {
        return try_shape(torus_of(third, fourth), fifth);
    }
    None
}

#[tactic(auto, unfolding(crate::specs::Words::request_of))]
fn on_six<'w>(
    word: &str,
    second: &'w str,
    third: &'w str,
    fourth: &str,
    fifth: &str,
    sixth: &'w str,
) -> Option<Command<'w>>
    ensures { Asks result
        (word.now ∷ second.now ∷ third.now ∷ fourth.now ∷ fifth.now ∷ sixth.now ∷ []) }
{
    if word == "cut" && fifth == "through" {
        return cut_through(second, third, fourth, sixth);
    }
    if word == "try" && second == "chain" {
        return try_shape(chain_of(third, fourth, fifth), sixth);
    }
    None
}

/// The row of the command table that the words are in.
pub fn parse(words: &[String]) -> Option<Command<'_>>
    ensures { Asks result (texts words.now) }
{
    match words {
        [] => None,
        [word] => on_one(word),
        [word, mesh] => on_two(word, mesh),
        [word, mesh, third] => on_three(word, mesh, third),
        [word, second, third, fourth] => on_four(word, second, third, fourth),
        [word, second, third, fourth, fifth] => on_five(word, second, third, fourth, fifth),
        [word, second, third, fourth, fifth, sixth] => {
            on_six(word, second, third, fourth, fifth, sixth)
        }
        [_, _, _, _, _, _, _, ..] => None,
    }
}
