//! What a walk over rows of numbers reaches.
ghost use Rattle.std.specs.Prelude.{◌≡◌, ◌<◌, ℕ, length, replicate, true, false, [], All, OnOk, IfOk};
ghost use Rattle.std.specs.Prelude.{MatchOption};
ghost use Rattle.surf_soup.specs.Reach.{Visits, IsReach, marked};

use std::alloc::Global;
use surf_base::NoMemory;
use surf_rows::Rows;

// Marks the numbers of a row, and lists those that weren't marked.
fn visit(row: &[u32], seen: &mut [bool], listed: &mut Vec<u32>) -> Result<(), NoMemory>
    requires { All (λ g. g < length seen.old) row.now }
    ensures { OnOk result (Visits row.now (length row.now)
        seen.old listed.old.items seen.new listed.new.items) }
{
    for g in row {
        if seen[*g as usize] {
            continue;
        }
        seen[*g as usize] = true;
        listed.push(*g)?;
    }
    Ok(())
}

// Goes through the row of a number and of each that is met, until no more is met.
fn walk(
    rows: &Rows<u32>,
    from: u32,
    seen: &mut [bool],
    listed: &mut Vec<u32>,
) -> Result<(), NoMemory>
    requires inside { All (λ row. All (λ g. g < length rows.now) row) rows.now }
    requires start { from < length rows.now }
    requires fresh { seen.old ≡ replicate (length rows.now) false }
    requires none { listed.old.items ≡ [] }
    ensures { OnOk result (IsReach rows.now from seen.new) }
{
    seen[from as usize] = true;
    listed.push(from)?;
    let mut k = 0;
    while k < listed.len() {
        let row = rows.row(listed[k] as usize);
        visit(row, seen, listed)?;
        k += 1;
    }
    Ok(())
}

/// Marks what chains of rows lead to from a number.
pub fn reach(alloc: Global, rows: &Rows<u32>, from: u32) -> Result<Vec<bool>, NoMemory>
    requires start { from < length rows.now }
    requires inside { All (λ row. All (λ g. g < length rows.now) row) rows.now }
    ensures { IfOk result (λ v. IsReach rows.now from v.items) }
{
    let mut seen = vec![in alloc; false; rows.len()]?;
    let mut listed = Vec::with_capacity(alloc, rows.len())?;
    walk(rows, from, &mut seen, &mut listed)?;
    Ok(seen)
}

/// The first mark that is false.
pub fn first_unmarked(seen: &[bool]) -> Option<usize>
    ensures { MatchOption result ((k : ℕ) → k < length seen.now → marked seen.now k ≡ true)
        (λ f. (f < length seen.now) × (marked seen.now f ≡ false) × ((j : ℕ) → j < f →
        marked seen.now j ≡ true)) }
{
    for (k, mark) in seen.iter().enumerate() {
        if !*mark {
            return Some(k);
        }
    }
    None
}
