//! The loops of edges that a search tells of, of each class the first.
ghost use Rattle.std.specs.Prelude.{◌≡◌, ◌⊎◌, true, All, IsTrue, OnOk};
ghost use Rattle.surf_choice.specs.Candidates.{signatures};
ghost use Rattle.surf_finder.specs.Found.{IsSearched, IsReachedAt, AreListed, reached_at, is_between, is_wanted, told_loop, is_first, precedes, HasNoLater, CoversAt, AreFirstTold};
ghost use Rattle.surf_finder.specs.Keys.{IsKey, IsNoted, IsStanding, key_class};
ghost use Rattle.surf_finder.specs.Rises.{IsRise};

use crate::keys::{Key, Keys, Noted};
use crate::reached::{Reached, candidate_of, class_of, hash_of, is_sought, key_of, may_matter};
use crate::rises::{Rise, rise_of};
use surf_base::{EdgeId, NoMemory, VertexId};
use surf_bits::Signature;
use surf_choice::{Candidate, Signed};

/// Which of the loops of one class and one length is listed: that of the lesser base, or that of
/// the lesser edge.
#[derive(Clone, Copy)]
pub enum Ties {
    LesserBase,
    LesserEdge,
}

// What is known of the class of a loop: that it was met, and the place of the listed loop that has
// it, or none where it is null; or that it is null; or that it is new, and not null.
#[derive(Drop)]
enum Standing {
    Met(Option<usize>),
    Null,
    New(Signature),
}

// Whether a candidate is first of two of one length.
fn is_first(ties: Ties, c: &Candidate, d: &Candidate) -> bool
    ensures first { result ≡ is_first ties c.now d.now }
{
    match ties {
        Ties::LesserBase => {
            c.base.number() < d.base.number()
                || c.base.number() == d.base.number() && c.edge.number() <= d.edge.number()
        }
        Ties::LesserEdge => c.edge.number() <= d.edge.number(),
    }
}

// Whether a candidate is no later than another.
fn precedes(ties: Ties, c: &Candidate, d: &Candidate) -> bool
    ensures precedes { result ≡ precedes ties c.now d.now }
{
    c.length < d.length || c.length == d.length && is_first(ties, c, d)
}

// Lets a listed loop stand for another of its class, or that in its place for both.
fn take_first(ties: Ties, candidate: Candidate, listed: &mut Signed)
    ensures rest { listed.new ≡ record listed.old { candidate = listed.new.candidate } }
    ensures either { (listed.new.candidate ≡ candidate) ⊎ (listed.new.candidate ≡ listed.old.candidate) }
    ensures first { IsTrue (precedes ties listed.new.candidate candidate) }
    ensures old_first { IsTrue (precedes ties listed.new.candidate listed.old.candidate) }
{
    if !precedes(ties, &listed.candidate, &candidate) {
        listed.candidate = candidate;
    }
}

// Looks up the class of a key where its hash leads. There may be another key, whose listed loop has
// the same class.
fn look_up(reached: &Reached<'_, '_>, key: &Key, keys: &Keys, found: &[Signed]) -> Standing
    requires key { IsKey reached.now.ways.now reached.now.kinds.now key.now }
    requires noted { All (IsNoted reached.now.ways.now reached.now.kinds.now (signatures found.now))
        keys.now }
    ensures standing { IsStanding (key_class reached.now.ways.now reached.now.kinds.now key.now)
        (signatures found.now) result }
{
    let hash = hash_of(reached, key);
    if let Some(noted) = keys.find(hash, key) {
        return Standing::Met(noted.place);
    }
    let class = class_of(reached, key);
    if class.bits().is_empty() {
        return Standing::Null;
    }
    if let Some(k) = keys.place(hash) {
        if class.bits().is_same(&found[k].signature.bits()) {
            return Standing::Met(Some(k));
        }
    }
    Standing::New(class)
}

// Adds the loop of an edge whose ends were reached, where it isn't null and comes before a limit.
// One of its class that is listed may stand for it, or it for that.
fn add_loop(
    reached: &Reached<'_, '_>,
    ties: Ties,
    limit: &Option<Candidate>,
    rise: &Rise,
    keys: &mut Keys,
    found: &mut Vec<Signed>,
) -> Result<(), NoMemory>
    requires searched { IsSearched reached.now }
    requires rise { IsRise reached.now.surface.now.mesh.now rise.now }
    requires between { IsTrue (is_between (reached_at reached.now) rise.now.edge) }
    requires listed { AreListed reached.now limit.now found.old.items keys.old }
    ensures listed { OnOk result (AreListed reached.now limit.now found.new.items keys.new) }
    ensures kept { OnOk result (All (HasNoLater ties found.new.items) found.old.items) }
    ensures here { OnOk result (is_wanted (reached_at reached.now) limit.now rise.now.edge ≡ true
        → HasNoLater ties found.new.items (told_loop (reached_at reached.now) rise.now.edge)) }
{
    let candidate = candidate_of(reached, rise);
    if !is_sought(&candidate, limit) {
        return Ok(());
    }
    let key = key_of(reached, rise);
    match look_up(reached, &key, keys, found) {
        Standing::Met(None) => Ok(()),
        Standing::Met(Some(k)) => {
            take_first(ties, candidate, &mut found[k]);
            Ok(())
        }
        Standing::Null => keys.note(hash_of(reached, &key), Noted { key, place: None }),
        Standing::New(signature) => {
            let place = Some(found.len());
            keys.note(hash_of(reached, &key), Noted { key, place })?;
            found.push(Signed {
                candidate,
                from: reached.desk.base(),
                signature,
            })?;
            Ok(())
        }
    }
}

// Adds the loops of the edges of which a vertex that was reached is the lesser end, where they
// aren't null and come before a limit, or others of their classes that are no later.
fn list_at(
    reached: &Reached<'_, '_>,
    ties: Ties,
    limit: &Option<Candidate>,
    v: VertexId,
    keys: &mut Keys,
    found: &mut Vec<Signed>,
) -> Result<(), NoMemory>
    requires searched { IsSearched reached.now }
    requires vertex { IsReachedAt reached.now v }
    requires listed { AreListed reached.now limit.now found.old.items keys.old }
    ensures listed { OnOk result (AreListed reached.now limit.now found.new.items keys.new) }
    ensures kept { OnOk result (All (HasNoLater ties found.new.items) found.old.items) }
    ensures here { OnOk result (CoversAt ties (reached_at reached.now) limit.now v found.new.items) }
{
    let (start, past) = reached.rises.at(v);
    for e in start..past {
        let rise = rise_of(reached.surface.mesh, EdgeId::new(e));
        if may_matter(reached, &rise) {
            add_loop(reached, ties, limit, &rise, keys, found)?;
        }
    }
    Ok(())
}

// Lists loops that aren't null and come before a limit, of edges between vertices that were
// settled: those that are left out have one of their class there that is no later.
pub(crate) fn list_loops(
    reached: &Reached<'_, '_>,
    ties: Ties,
    limit: &Option<Candidate>,
    keys: &mut Keys,
    found: &mut Vec<Signed>,
) -> Result<(), NoMemory>
    requires searched { IsSearched reached.now }
    requires settled { All (IsReachedAt reached.now) reached.now.desk.now.settled }
    ensures told { OnOk result (AreFirstTold ties (reached_at reached.now) limit.now found.new.items) }
{
    found.clear();
    keys.clear();
    for v in reached.desk.settled() {
        list_at(reached, ties, limit, *v, keys, found)?;
    }
    Ok(())
}
