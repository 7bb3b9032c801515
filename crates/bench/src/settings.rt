// Rules set on a bench: each part is held against the recording's channels and scale.
ghost use Rattle.std.specs.Prelude.{◌≡◌};
ghost use Rattle.std.specs.Option.{ok_or};
ghost use Rattle.scale.specs.declared.faults.ScaleFault.TheVariants.{NoMark};
ghost use Rattle.formula.specs.Formulas.{parts_of};
ghost use Rattle.bench.specs.Settings.{Fitted, channel_checked, channels_checked, fitted_from, fitted_part};

use crate::faults::BenchFault;
use formula::{Conversion, Formula, Operand, Part};
use recording::TapeFault;
use scale::{Scale, ScaleFault};

// Refuses a channel that the recording has not.
pub(crate) fn check_channel(channel: usize, channels: usize) -> Result<(), TapeFault>
    ensures { result ≡ channel_checked channels channel }
{
    if channel < channels {
        Ok(())
    } else {
        Err(TapeFault::NoChannel)
    }
}

// The mark of a code.
pub(crate) fn named_mark<S: Scale>(number: u32) -> Result<S, ScaleFault>
    ensures { result ≡ ok_or (S.named number) NoMark }
{
    S::of_code(number).ok_or(ScaleFault::NoMark)
}

// Codes, as the marks that they name.
#[derive(Clone, Copy)]
struct NamedMarks;

impl<S: Scale> Conversion<u32, S> for NamedMarks {
    type Fault = ScaleFault;

    ghost answers = { λ _ code out. out ≡ ok_or (S.named code) NoMark };

    fn convert(&self, code: u32) -> Result<S, ScaleFault> {
        named_mark(code)
    }
}

// Refuses a part that names a channel that the recording has not.
fn check_channels(part: &Part<u32>, channels: usize) -> Result<(), TapeFault>
    ensures { result ≡ channels_checked channels part.now }
{
    if let Part::Comparison {
        channel,
        operand,
        ..
    } = part
    {
        check_channel(*channel, channels)?;
        if let Operand::Channel(other) = operand {
            check_channel(*other, channels)?;
        }
    }
    Ok(())
}

// The part with marks in place of codes.
fn fit_part<S: Scale>(part: Part<u32>, channels: usize) -> Result<Part<S>, TapeFault>
    ensures { result ≡ fitted_part S.named channels part }
{
    check_channels(&part, channels)?;
    Ok(part.convert(&NamedMarks)?)
}

// All parts with marks in place of codes, or the first that is refused, with its number.
pub(crate) fn fit_parts<S: Scale>(
    formula: &Formula<u32>,
    channels: usize,
    fresh: &mut Formula<S>,
) -> Result<(), BenchFault>
    ensures { Fitted result (parts_of fresh.new) (fitted_from S.named channels 0 (parts_of formula.now)) }
{
    fresh.clear();
    for (number, part) in formula.parts().iter().enumerate() {
        let fitted = match fit_part(*part, channels) {
            Ok(fitted) => fitted,
            Err(fault) => return Err(BenchFault::Part {
                part: number,
                fault,
            }),
        };
        fresh.push(fitted).unwrap();
    }
    Ok(())
}
