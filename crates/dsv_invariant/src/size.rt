// The size of a job over runs of any length.
ghost use Rattle.dsv_bounded.specs.Refusals.{IsWeighed};
ghost use Rattle.dsv_invariant.specs.Limits.{unbounded_samples};
ghost use Rattle.dsv_bounded.specs.RunQuestions.{job_size_of};
ghost use Rattle.dsv_realise.specs.Controllers.{of_controller};

use dsv_bounded::{TooLarge, accept};
use dsv_meaning::products;
use dsv_quantiser::Quantised;

/// A job over runs of any length is as great as a bounded one over so many samples.
pub const UNBOUNDED_SAMPLES: u32 = 9;

/// Refuses a controller whose job over runs of any length is too large. It takes no memory.
pub fn accept_unbounded(quantised: &Quantised) -> Result<(), TooLarge>
    ensures { IsWeighed (job_size_of (of_controller quantised.now) unbounded_samples) result }
{
    let products = products(quantised.realisation(), quantised.order() as u32);
    accept(products, &quantised.format(), UNBOUNDED_SAMPLES)
}
