// The sizes of bounded jobs, and why one has no answer.
ghost use Rattle.std.specs.Prelude.{◌≡◌, ◌≤◌, ◌*◌, ◌^◌};
ghost use Rattle.dsv_bounded.specs.Refusals.{IsWeighed};
ghost use Rattle.dsv_bounded.specs.RunQuestions.{job_size_of};
ghost use Rattle.dsv_word.specs.Words.{width};

use dsv_base::NoMemory;
use dsv_realise::{Asking, Subject};
use dsv_word::Format;

/// The greatest job that is taken.
pub const MOST_SIZE: u64 = 250_000;

/// Why a bounded job has no answer.
#[derive(Clone, Copy, Debug, PartialEq, Eq)]
pub enum BoundedRefusal {
    /// The job is too large.
    JobSize { size: u64 },
    NoMemory,
}

impl From<NoMemory> for BoundedRefusal {
    ghost use Rattle.std.specs.Prelude.{◌≡◌};
    ghost use Rattle.dsv_bounded.specs.declared.refusals.BoundedRefusal.TheVariants as refusal;

    ghost from_gives = { λ _ e. e ≡ refusal.NoMemory };

    fn from(_: NoMemory) -> Self {
        BoundedRefusal::NoMemory
    }
}

/// The size of a job that is too large.
#[derive(Clone, Copy, Debug, PartialEq, Eq)]
pub struct TooLarge {
    pub size: u64,
}

impl From<TooLarge> for BoundedRefusal {
    ghost use Rattle.std.specs.Prelude.{◌≡◌};
    ghost use Rattle.dsv_bounded.specs.declared.refusals.BoundedRefusal.TheVariants as refusal;

    ghost from_gives = { λ job e. e ≡ refusal.JobSize job.size };

    fn from(job: TooLarge) -> Self {
        BoundedRefusal::JobSize { size: job.size }
    }
}

/// How great a job over so many samples is, of so many products a sample in words of this format:
/// samples times products times the square of a word's bits.
fn job_size(products: u32, format: &Format, samples: u32) -> u64
    requires { samples ≤ 64 }
    ensures { result ≡ samples * products * width format.now ^ 2 }
{
    let width = u64::from(format.width());
    u64::from(samples) * u64::from(products) * (width * width)
}

/// Refuses such a job that is too large. It takes no memory.
pub fn accept(products: u32, format: &Format, samples: u32) -> Result<(), TooLarge>
    requires { samples ≤ 64 }
    ensures { IsWeighed (samples * products * width format.now ^ 2) result }
{
    let size = job_size(products, format, samples);
    if size > MOST_SIZE {
        return Err(TooLarge { size });
    }
    Ok(())
}

/// Refuses a job over so many of a subject's samples that is too large.
pub(crate) fn accept_size<S: Subject>(asking: &Asking<S>, samples: u32) -> Result<(), TooLarge>
    requires { samples ≤ 64 }
    ensures { IsWeighed (job_size_of (S.view asking.now.subject.now) samples) result }
{
    accept(asking.net.counts().products, &asking.net.format(), samples)
}
