//! How entities are shared.
ghost use Rattle.std.specs.Prelude.{◌≡◌, ℕ, ◌+◌, ◌<◌, ◌≤◌, ◌∷◌, ◌++◌, List, min, length, true, IfOk, MatchResult};
ghost use Rattle.std.specs.FinSet as set;
ghost use Rattle.hibitset.specs.AtomicCore.{AreWordsOf};
ghost use Rattle.hibitset.specs.Rows.{sizes_for};
ghost use Rattle.specs_entity.specs.Births.{RefusesBirths};
ghost use Rattle.specs_entity.specs.PhaseViews.{whole_view};
ghost use Rattle.specs_entity.specs.SharedSeats.{IsSeatOf, view_of_seat};

use crate::entities_res::EntitiesRes;
use crate::errors::Error;
use crate::phase_rule::PhaseKey;
use crate::shared_entities::{ALL_PARTS, EntitySeat, SharedEntities};
use atomic_table::Table;
use std::alloc::AllocError;

impl EntitiesRes {
    /// Shares the entities: from now on threads create and delete, each by a seat. The reserve is the
    /// list of the entities that so many calls of `create` would give; a claim gives the next of them.
    ///
    /// The seat holds all 65,536 parts, and the whole reserve is its allowance.
    ///
    /// Errors: those of `create_iter` for the reserve, and `Memory`. The entities come back as they were.
    pub fn share(self, reserve: u32) -> Result<(SharedEntities, EntitySeat), (Error, EntitiesRes)>
        ensures { MatchResult result
            (λ shared. IsSeatOf shared.0 shared.1 × (view_of_seat shared.1 ≡ whole_view shared.0.key)
            × (shared.0.key.before ≡ self) × (shared.0.key.reserve ≡ reserve))
            (λ refusal. (refusal.1 ≡ self) × RefusesBirths reserve self refusal.0) }
    {
        let alloc = self.alloc;
        let count = (self.generations.len() + reserve as usize + 1).min(16_777_216);
        let words = match self.phase_words(count) {
            Ok(words) => words,
            Err(_) => return Err((Error::Memory, self)),
        };
        let known = match Vec::with_capacity(alloc, reserve as usize) {
            Ok(known) => known,
            Err(_) => return Err((Error::Memory, self)),
        };
        let key = PhaseKey {
            before: self,
            reserve,
        };
        match Table::of_words(alloc, words.as_slice(), &key) {
            Ok((table, seat)) => {
                let PhaseKey {
                    before: mut entities,
                    reserve: _,
                } = key;
                match entities.create_list(reserve as usize) {
                    Ok(made) => {
                        let first = (count + 63) / 64;
                        let second = (first + 63) / 64;
                        let shared = SharedEntities {
                            table,
                            entities,
                            reserve: made,
                            first,
                            second,
                            third: (second + 63) / 64,
                        };
                        let seat = EntitySeat {
                            seat,
                            parts: ALL_PARTS,
                            allowance: reserve,
                            known,
                        };
                        Ok((shared, seat))
                    }
                    Err(error) => Err((error, entities)),
                }
            }
            Err(_) => {
                let PhaseKey { before, reserve: _ } = key;
                Err((Error::Memory, before))
            }
        }
    }

    /// The words of the table of a phase: the claim word, then the layers of the raised set, then
    /// those of the killed set.
    fn phase_words(&self, count: usize) -> Result<Vec<u64>, AllocError>
        requires few { count ≤ 16777216 }
        requires within { min (length self.now.persistent + 1) 16777216 ≤ count }
        ensures { IfOk result (λ words. (raised : List ℕ) × (killed : List ℕ) × (words.items ≡ 0 ∷ raised ++ killed)
            × AreWordsOf (sizes_for count) (set.contains self.now.fresh) raised
            × AreWordsOf (sizes_for count) (set.contains self.now.deletions) killed) }
    {
        let mut raised = self.raised.layers_in_row(count)?;
        let mut killed = self.killed.layers_in_row(count)?;
        let mut words = Vec::with_capacity(self.alloc, raised.len() + killed.len() + 1)?;
        let _ = words.push(0);
        words.append(&mut raised)?;
        words.append(&mut killed)?;
        Ok(words)
    }
}
