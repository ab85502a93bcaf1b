//! Jobs that are counted.
ghost use Rattle.std.specs.Prelude.{◌≡◌, ◌≢◌, ◌≤◌, ◌+◌, ◌<◌, ◌^◌, Some, IfOk, IfErr};
ghost use Rattle.std.specs.Result.{result_err};
ghost use Rattle.specs_entity.specs.declared.errors.Error.TheVariants as refusal;
ghost use Rattle.specs_world.specs.Queues.{counted};

use crate::maintained::Maintained;
use specs_entity::Error;

/// Counts a job more, by what it came to.
///
/// Errors: `Memory`, where the job found none.
pub(crate) fn count(counts: Maintained, outcome: Result<(), Error>) -> Result<Maintained, Error>
    requires jobs { counts.jobs + 1 < 2 ^ 64 }
    requires failed { counts.failed ≤ counts.jobs }
    ensures ok { IfOk result (λ more. (result_err outcome ≢ Some refusal.Memory)
        × (more ≡ counted (result_err outcome) counts)) }
    ensures err { IfErr result (λ error. (error ≡ refusal.Memory) × (result_err outcome ≡ Some refusal.Memory)) }
{
    match outcome {
        Ok(()) => Ok(Maintained {
            jobs: counts.jobs + 1,
            failed: counts.failed,
        }),
        Err(error) => match error {
            Error::Memory => Err(Error::Memory),
            _ => Ok(Maintained {
                jobs: counts.jobs + 1,
                failed: counts.failed + 1,
            }),
        },
    }
}
