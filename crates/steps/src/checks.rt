// What refuses a sample, by its fault.
ghost use Rattle.std.specs.Prelude.{◌≡◌, Some};
ghost use Rattle.rules.specs.Rules.{first_of};
ghost use Rattle.ticks.specs.Samples.{axes_of, whole_of};
ghost use Rattle.steps.specs.Answers.{unrefused};
ghost use Rattle.steps.specs.Refusals.{fault_number, sample_rules};

use rules::{Reason, Refusal};
use ticks::{Fault, FaultySample, Sample, WholeSample, round_sample};

// What refuses floats with a fault: no `From`, which only the crate of one of the two types could declare.
pub fn refusal_of(fault: Fault) -> Refusal
    ensures { result ≡ fault_number (Some fault) }
{
    let reason = match fault {
        Fault::NotANumber => Reason::NotANumber,
        Fault::Infinite => Reason::Infinite,
        Fault::TooLarge => Reason::TooLarge,
    };
    reason.into()
}

// The number of what refuses floats, and 0 where they have no fault.
pub fn fault_number(fault: Option<Fault>) -> u8
    ensures { result ≡ fault_number fault }
{
    match fault {
        None => 0,
        Some(fault) => refusal_of(fault).number(),
    }
}

fn refused(sample: FaultySample) -> Refusal
    ensures { result ≡ fault_number (Some sample.fault) }
{
    refusal_of(sample.fault)
}

// A sample's ticks, or what refuses it.
pub(crate) fn whole_sample(a: Sample) -> Result<WholeSample, Refusal>
    ensures { result ≡ unrefused (first_of (sample_rules (axes_of a))) (whole_of a) }
{
    round_sample(a).map_err(refused)
}
