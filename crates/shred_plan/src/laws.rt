//! Laws of all plans, on which callers rely. The functions have no code; each contract is the law.
ghost use Rattle.std.specs.Prelude.{List, [], ◌∷◌, ◌++◌};
ghost use Rattle.shred_plan.specs.Plan.{Added, fence, plan};
ghost use Rattle.shred_plan.specs.Laws.{GroupsAreApart, GroupsAreShort, EachStandsOnce, systems_added, Stay};
ghost use Rattle.shred_plan.specs.Laws.{EndsWith, ComeAfter, StagesWait};

/// A group has at most four systems.
pub fn groups_are_short<K: PartialEq + Drop>()
    ensures { (list : List (Added K)) → GroupsAreShort (plan K.eq list) }
{}

/// The systems of a plan are those that were added, each once.
pub fn each_system_stands_once<K: PartialEq + Drop>()
    ensures { (list : List (Added K)) → EachStandsOnce (systems_added list) (plan K.eq list) }
{}

/// Two groups of a stage share no id that either of them writes.
pub fn groups_are_apart<K: PartialEq + Drop>()
    ensures { (list : List (Added K)) → GroupsAreApart K.eq (plan K.eq list) }
{}

/// What is added later moves no system: each keeps its stage, its group and its place there.
pub fn systems_stay<K: PartialEq + Drop>()
    ensures { (list later : List (Added K)) → Stay (plan K.eq list) (plan K.eq (list ++ later)) }
{}

/// What is added after a barrier stands in stages of its own, behind the plan of what was added before it.
pub fn barriers_hold<K: PartialEq + Drop>()
    ensures { (list later : List (Added K)) → EndsWith (plan K.eq list) (systems_added later)
        (plan K.eq (list ++ fence ∷ later)) }
{}

/// Where each system comes after systems that were added before it, those stand in an earlier stage or earlier in its group.
pub fn systems_wait<K: PartialEq + Drop>()
    ensures { (list : List (Added K)) → ComeAfter [] list → StagesWait [] (plan K.eq list) }
{}
