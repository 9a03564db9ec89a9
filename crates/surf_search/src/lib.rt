//! Loops among which a shortest basis of the closed walks of a surface is, and the first of them.
//!
//! A finder (`surf_finder`) finds the loops at a vertex, with the least vertex on a shortest way to
//! each. Of all that is found the shortest independent loops are kept: the loops of the basis have
//! their lengths, and their least vertices as bases. Once as many are kept as there may be, a search
//! goes no farther than half the length of the last.
//!
//! Most vertices need not be searched as far as the longest loop of the basis goes. Where the
//! signature of an edge is a sum of the first of the loops that are kept, a loop over it that is
//! longer than all of these is a sum of shorter ones, or it goes over another edge too that needs
//! more of them (`law_of_heights`, `law_of_caps` of `surf_caps`). So each edge asks for a search
//! from one of its ends, up to the length of the last of those loops: this caps the vertex. Where
//! one handle is long and many are short, few vertices have great caps. But what is kept after one
//! search makes caps too great: loops of far handles look long from there. So searches go in
//! rounds (`rounds.rt`). The first one finds what is no longer than four times the first loop, each
//! further one what is four times as long, or as long as the next loop that is kept. After a round
//! nothing is left to find up to its length, at any vertex, and the next one sets caps anew by what
//! is kept by then.
//!
//! Before the first round there are probes (`probes.rt`): searches near some edges, each no farther
//! than until it has found a loop that is shorter than those kept. Loops at one vertex are long
//! where handles are far from it, and the first caps rest on them.
//!
//! Where all handles are alike caps win nothing. There it may cost less to search from vertices
//! such that every closed walk that isn't null meets one of them. The caller gives these vertices,
//! and each round takes what costs less, which is estimated from how many vertices are within a
//! radius (`costs.rt`).
//!
//! In a round the greatest caps are first (`round.rt`). Vertices with many edges are searched in
//! each round, the first of their cap: whoever comes to one comes to all around it. The others are
//! in an order that scatters some of them over the whole surface, so that short loops of all parts
//! are found soon, and then goes part by part. To each search
//! the ways through vertices that are done with are barred: the edges there are as long as an edge
//! may be. Vertex 0 is done with from the start, since it was searched as far as the surface goes.
//! A search needs no barred edges, since a loop that goes through such a vertex is a sum of loops
//! there, for which what is kept is enough already (`law_of_barred_searches` of `surf_caps`). At
//! the end of a round no vertex is barred any more, so that one finder serves all rounds. A search
//! may go somewhat farther than it must. Where all loops that it finds are longer than kept ones of
//! which they are sums, by more than a way there and back, the vertices that are so near are done
//! with too. Loops that are sums of kept ones up to the length of the round before are no matter to
//! that. Where searches tell nothing of the vertices near them they go farther ever more seldom.
//!
//! The first loop of all is found without rounds (`first_loops.rt`), from vertices of which every
//! closed walk that isn't null meets one. There too the ways through vertices that are done with are
//! barred: a loop that goes through one comes no sooner than the first loop that is known.
#![tactic(auto)]

mod caps;
mod costs;
mod degrees;
mod first_loops;
mod kept_loops;
mod pace;
mod probes;
mod round;
mod rounds;

pub use degrees::{count_signed, lesser_first};
pub use first_loops::first_among;
pub use kept_loops::keep_loops;
pub use rounds::sufficient_loops;
