//! A caller that puts another entity in the place of one that is kept.
ghost use Rattle.std.specs.Prelude.{◌≡◌, ◌≢◌, ◌<◌, ◌+◌, ℕ, Some, is_some, if◌then◌else◌};
ghost use Rattle.scene.specs.Rows.{seat_at, datum_at, counted, kinds_kept, HasRoom};

use scene::snapshot::KeptScene;

/// At an index another id stands, with this datum of the first kind: what the index bore is left out, the datum is
/// written, and the id is entered.
pub fn replace_entry<G>(kept: &mut KeptScene<u64, G>, index: usize, id: u64, datum: u64)
    requires room { HasRoom (index + 1) kept.old }
    requires kinds { 0 < kinds_kept kept.old }
    ensures seat { seat_at kept.new index ≡ Some id }
    ensures datum { datum_at kept.new 0 index ≡ Some datum }
    ensures seats { (other : ℕ) → other ≢ index → seat_at kept.new other ≡ seat_at kept.old other }
    ensures changes { kept.new.changes ≡ counted (if is_some (seat_at kept.old index) then counted kept.old.changes
        else kept.old.changes) }
{
    let _ = kept.leave_out(index);
    kept.write(0, index, Some(datum));
    kept.enter(index, id);
}
