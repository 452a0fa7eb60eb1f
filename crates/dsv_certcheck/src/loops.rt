// The check of certificates against words in a loop with a plant.
ghost use Rattle.std.specs.Prelude.{None, OnOk};
ghost use Rattle.dsv_certcheck.specs.Checks.{Finds};
ghost use Rattle.dsv_certcheck.specs.LoopChecks.{loop_check, words_loop_check};
ghost use Rattle.dsv_certcheck.specs.Shown.{LoopHas, StaysAsOffered};
ghost use Rattle.dsv_certfile.specs.Texts.{job_of};

use crate::check_refusal::CheckRefusal;
use crate::tables::check_table;
use dsv_certfile::{Certificate, CertifiedJob, Size};
use dsv_fraction::Frac;
use dsv_integer::Numeral;
use dsv_loop::loop_polynomial;
use dsv_names::{Property, RootProperty};
use dsv_quantiser::Quantised;
use dsv_reader::Plant;
use std::alloc::Global;
use std::slice;

/// What a controller runs with in its loop: the sample time, and the plant.
#[derive(Clone, Copy)]
pub(crate) struct LoopSide<'a> {
    pub sample_time: Frac,
    pub plant: &'a Plant,
}

/// Checks that a table shows the property of a job, for words that run with this sample time in a
/// loop with the plant.
fn check_loop_table(
    alloc: Global,
    quantised: &Quantised,
    run: &LoopSide,
    job: &CertifiedJob,
    coefficients: &[Numeral],
) -> Result<(), CheckRefusal>
    ensures found { Finds result (loop_check job.now.words quantised.now run.now.sample_time
        run.now.plant.now job.now.property job.now.size coefficients.now) }
    ensures shows { OnOk result (LoopHas quantised.now run.now.sample_time run.now.plant.now
        job.now.property job.now.size) }
{
    match (job.property, job.size) {
        (Property::OfRoots(RootProperty::Stability), Size::OfLoop) => {
            let sections = slice::from_ref(quantised);
            let poly = loop_polynomial(sections, run.sample_time, run.plant, alloc)?;
            check_table(alloc, job.words, poly.as_slice(), coefficients)
        }
        (_, _) => Err(CheckRefusal::misfit(job.words)),
    }
}

/// Checks a certificate for words that run with this sample time in a loop with the plant. What
/// passes has nothing to say of the output's error.
pub(crate) fn check_loop_words(
    alloc: Global,
    quantised: &Quantised,
    run: &LoopSide,
    certificate: &Certificate,
) -> Result<(), CheckRefusal>
    ensures found { Finds result (words_loop_check quantised.now run.now.sample_time
        run.now.plant.now certificate.now) }
    ensures shows { OnOk result (LoopHas quantised.now run.now.sample_time run.now.plant.now
        (job_of certificate.now).property (job_of certificate.now).size) }
    ensures near { OnOk result (StaysAsOffered quantised.now certificate.now None) }
{
    match certificate {
        Certificate::Table { job, coefficients } => {
            check_loop_table(alloc, quantised, run, job, coefficients.as_slice())
        }
        other => Err(CheckRefusal::misfit(other.job().words)),
    }
}
