//! The choice among candidates, part by part.
ghost use Rattle.std.specs.Prelude.{ℕ, ◌≡◌, ◌≢◌, ◌<◌, ◌≤◌, ◌^◌, [], IfOk, OnOk, All, length};
ghost use Rattle.surf_z2.specs.Order.{merge, IsInOrder};
ghost use Rattle.surf_choice.specs.Candidates.{signed_earlier, independent_of, IsSumOfLength};
ghost use Rattle.surf_choice.specs.Places.{limit_of, stands_before};
ghost use Rattle.surf_base.specs.declared.limits.TheConstants.{MAX_LOOPS};

use crate::candidate::{Candidate, Signed};
use crate::echelon::Echelon;
use crate::merging::{first_change, merge, sift};
use std::alloc::Global;
use std::marker::Model;
use surf_base::NoMemory;
use surf_bits::Bits;

/// The candidates that are kept, in order. Its width is how many may be independent, and there is
/// room for as many.
#[derive(Drop)]
pub struct Choice {
    kept: Vec<Signed>,
    keys: Vec<Candidate>,
    merged: Vec<Signed>,
    rows: Echelon,
    width: usize,
}

impl Model for Choice {
    ghost use Rattle.surf_base.specs.declared.limits.TheConstants.{MAX_LOOPS};
    ghost use Rattle.std.specs.Prelude.{◌≡◌, ◌≤◌, ◌<◌, ◌^◌, All, length, vec_capacity};
    ghost use Rattle.surf_choice.specs.Candidates.{Chosen, candidates, signatures};
    ghost use Rattle.surf_choice.specs.Echelons.{AreRowsOf};

    ghost Value = { Chosen };

    ghost view = { λ c. record { width = c.width; kept = c.kept.items } };

    ghost invariant = { λ c. (c.rows.width ≡ c.width) × (length c.kept.items ≤ c.width)
        × (c.width ≤ vec_capacity c.kept) × (c.width ≤ MAX_LOOPS)
        × All (λ s. s.signature < 2 ^ c.width) c.kept.items
        × AreRowsOf c.rows.rows (signatures c.kept.items)
        × (c.keys.items ≡ candidates c.kept.items) × (c.width ≤ vec_capacity c.keys) };
}

impl Choice {
    /// Nothing kept.
    pub fn make(alloc: Global, width: u32) -> Result<Choice, NoMemory>
        requires { width ≤ MAX_LOOPS }
        ensures { IfOk result (λ choice. choice ≡ record { width = width; kept = [] }) }
    {
        Ok(Choice {
            kept: Vec::with_capacity(alloc, width as usize)?,
            keys: Vec::with_capacity(alloc, width as usize)?,
            merged: Vec::new(alloc),
            rows: Echelon::make(alloc, width)?,
            width: width as usize,
        })
    }

    /// The candidates that are kept.
    pub fn kept(&self) -> &[Signed]
        ensures kept { result.now ≡ self.now.kept }
    {
        &self.kept
    }

    /// What is true of those kept: there are no more of them than may be independent. A caller
    /// whose proof rests on that calls it; it does nothing.
    pub fn law_of_choice(&self)
        ensures few { length self.now.kept ≤ self.now.width }
    {
        // The use of a field makes the invariant of the type known.
        let _ = &self.kept;
    }

    /// Keeps nothing.
    pub fn clear(&mut self)
        ensures none { self.new ≡ record self.old { kept = [] } }
    {
        self.kept.clear();
        self.keys.clear();
        self.rows.truncate(0);
    }

    /// The last candidate that is kept, where as many are kept as may be independent: no later one
    /// can be kept.
    pub fn limit(&self) -> Option<Candidate>
        ensures limit { result ≡ limit_of self.now }
    {
        let [.., last] = self.kept.as_slice() else {
            return None;
        };
        if self.kept.len() < self.width {
            return None;
        }
        Some(last.candidate)
    }

    /// The length of the last of the first that are kept, of as few as it takes to make a set a sum
    /// of some of them: 0 where the set is empty, and the greatest number where it is no sum of
    /// those kept.
    pub fn sum_length(&self, set: &Bits<'_>) -> u64
        requires small { set.now < 2 ^ self.now.width }
        ensures sum { result ≢ 18446744073709551615 → IsSumOfLength self.now.kept result set.now }
        ensures least { IsInOrder stands_before self.now.kept → (most : ℕ) →
            IsSumOfLength self.now.kept most set.now → result ≤ most }
    {
        let Some(count) = self.rows.reach(set) else {
            return u64::MAX;
        };
        if count == 0 {
            return 0;
        }
        self.kept[count - 1].candidate.length
    }

    /// Makes the choice again from what is kept and other candidates in order. Those kept stay as
    /// far as it is the same.
    pub fn keep(&mut self, offered: &[Signed]) -> Result<(), NoMemory>
        requires small { All (λ s. s.signature < 2 ^ self.old.width) offered.now }
        ensures kept { OnOk result (self.new ≡ record self.old {
          kept = independent_of
              (merge signed_earlier self.old.kept offered.now);
        }) }
        ensures width { self.new.width ≡ self.old.width }
    {
        let Some(change) = first_change(&self.kept, &self.keys, &self.rows, offered) else {
            return Ok(());
        };
        let later = &self.kept[change.place..];
        let fresh = &offered[change.fresh..];
        self.merged.clear();
        self.merged.reserve(later.len() + fresh.len())?;
        merge(later, fresh, &mut self.merged);
        self.kept.truncate(change.place);
        self.rows.truncate(change.place);
        self.keys.truncate(change.place);
        sift(&self.merged, &mut self.rows, &mut self.kept, &mut self.keys);
        self.rows.law_of_echelon();
        Ok(())
    }
}
