//! What a thread works on.
ghost use Rattle.std.specs.Prelude.{◌≡◌, List, vec_capacity};
ghost use Rattle.std.specs.List.{AllZip};

/// Work that any thread may do.
pub trait Load<C>: Sized {
    /// What doing it may make of it, over what all threads share.
    ghost does: { C → Self → Self → Type 0 };

    /// Does it.
    fn work<H: AllocGlobal>(&mut self, rt: &H, shared: &C)
        ensures { does shared.now self.old self.new };
}

/// Works on each load of a row, from the first on.
pub(crate) fn work_row<C, T: Load<C>, H: AllocGlobal>(rt: &H, shared: &C, row: &mut [T])
    ensures { AllZip (T.does shared.now) row.old row.new }
{
    match row {
        [] => {}
        [one] => one.work(rt, shared),
        _ => {
            let middle = row.len() / 2;
            let (first, others) = row.split_at_mut(middle);
            work_row(rt, shared, first);
            work_row(rt, shared, others);
        }
    }
}

/// Works on each load of a row in its list.
pub(crate) fn work_list<C, T: Load<C>, H: AllocGlobal>(rt: &H, shared: &C, row: &mut Vec<T>)
    ensures works { AllZip (T.does shared.now) row.old.items row.new.items }
    ensures capacity { vec_capacity row.new ≡ vec_capacity row.old }
{
    work_row(rt, shared, row.as_mut_slice());
}
