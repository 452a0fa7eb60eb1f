// What is found of a generated controller.
ghost use Rattle.std.specs.Prelude.{◌≡◌, IfOk};
ghost use Rattle.dsv_tested.specs.declared.side.Tested.TheVariants as tested;
ghost use Rattle.dsv_generator.specs.Findings.{ShowsRoots, IsOfRoots, IsOfRuns, IsFinding};
ghost use Rattle.dsv_generator.specs.Small.{IsSmall, IsClosed};
ghost use Rattle.dsv_generator.specs.Tallies.{does_fall};

use crate::generator::{CONFLICTS, SAMPLES};
use dsv_base::NoMemory;
use dsv_bounded::{BoundedRefusal, overflow_within};
use dsv_closed_forms::closed_form;
use dsv_forms::Poly;
use dsv_hints::Searched;
use dsv_lyapunov::{CheckedForm, check_offer};
use dsv_meaning::Trace;
use dsv_quantiser::Quantised;
use dsv_realise::Asking;
use dsv_tested::{Side, Tested, polynomial_of};
use std::alloc::Global;

/// What is found of the roots of a side.
#[derive(Clone, Copy, Debug, PartialEq, Eq)]
pub enum RootFinding {
    /// The closed form falls along every trajectory.
    Falls,
    /// The closed form is kept away from 0.
    KeptAway,
    /// All coefficients of the side are 0.
    NoZeros,
}

impl RootFinding {
    /// Whether the closed form falls along every trajectory.
    pub(crate) fn does_fall(self) -> bool
        ensures { result ≡ does_fall self }
    {
        match self {
            RootFinding::Falls => true,
            RootFinding::KeptAway | RootFinding::NoZeros => false,
        }
    }
}

/// What is found of a controller.
#[derive(Drop)]
pub struct Finding {
    pub stability: RootFinding,
    pub minimum_phase: RootFinding,
    pub overflow: Searched<Trace>,
}

/// What the closed form of a polynomial shows.
fn form_finding(poly: &Poly) -> RootFinding
    requires { IsClosed (tested.Poly poly.now) }
    ensures { ShowsRoots poly.now result }
{
    let Some(offer) = closed_form(poly) else {
        unreachable!()
    };
    match check_offer(poly, &offer) {
        Ok(CheckedForm::Falls { .. }) => RootFinding::Falls,
        Ok(CheckedForm::KeptAway { .. }) => RootFinding::KeptAway,
        Err(_) => unreachable!(),
    }
}

/// What is found of the roots of a side.
fn root_finding(quantised: &Quantised, side: Side) -> RootFinding
    requires { IsSmall quantised.now }
    ensures { IsOfRoots quantised.now side result }
{
    match polynomial_of(quantised, side) {
        Ok(Tested::Poly(poly)) => form_finding(&poly),
        Ok(Tested::NoZeros) => RootFinding::NoZeros,
        Err(_) => unreachable!(),
    }
}

/// What is found of the overflow of runs over so many samples.
fn run_finding(alloc: Global, quantised: &Quantised) -> Result<Searched<Trace>, NoMemory>
    requires { IsSmall quantised.now }
    ensures { IfOk result (IsOfRuns quantised.now) }
{
    let asking = Asking::of(alloc, quantised)?;
    match overflow_within(alloc, &asking, SAMPLES, CONFLICTS) {
        Ok(found) => Ok(found),
        Err(BoundedRefusal::JobSize { .. }) => unreachable!(),
        Err(BoundedRefusal::NoMemory) => Err(NoMemory),
    }
}

/// What is found of a quantised controller.
pub(crate) fn finding_of(alloc: Global, quantised: &Quantised) -> Result<Finding, NoMemory>
    requires { IsSmall quantised.now }
    ensures { IfOk result (IsFinding quantised.now) }
{
    Ok(Finding {
        stability: root_finding(quantised, Side::Denominator),
        minimum_phase: root_finding(quantised, Side::Numerator),
        overflow: run_finding(alloc, quantised)?,
    })
}
