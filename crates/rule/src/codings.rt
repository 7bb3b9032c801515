// Puts the codes of a scale's marks in place of the runs that a plain reading left.
ghost use Rattle.std.specs.Prelude.{◌≡◌, MatchResult, ◌≢◌};
ghost use Rattle.scale.specs.declared.faults.ScaleFault.TheVariants.{Unread};
ghost use Rattle.reader.specs.Codings.{AllCoded, CodedPart, FirstUnread, UnreadPart};
ghost use Rattle.formula.specs.Formulas.{parts_of};
ghost use Rattle.formula.specs.Orders.{reach};
ghost use Rattle.reader.specs.Reads.{AllDrawn, Drawn};
ghost use Rattle.reader.specs.Runs.{IsRun, bytes_in};

use formula::{Conversion, Formula, Part};
use reader::Run;
use scale::{Scale, ScaleFault};
use std::marker::PhantomData;

// The codes of the marks that runs of a text are written as. A run that is not of the text is unread.
#[derive(Clone, Copy)]
struct MarkCodes<'a, S> {
    text: &'a [u8],
    scale: PhantomData<S>,
}

impl<S: Scale> Conversion<Run, u32> for MarkCodes<'_, S> {
    type Fault = ScaleFault;

    ghost answers = { λ codes run out. IsRun codes.text.now run → MatchResult out (λ k. (m : S) × (S.text m ≡ bytes_in codes.text.now run) × (k ≡ S.code m)) (λ e. (e ≡ Unread run.start) × ((m : S) → S.text m ≢ bytes_in codes.text.now run)) };

    fn convert(&self, run: Run) -> Result<u32, ScaleFault> {
        let Run { start, end } = run;
        let unread = ScaleFault::Unread { place: start };
        let bytes = self.text.get(start..end).ok_or(unread)?;
        match S::of_text(bytes) {
            Some(mark) => Ok(mark.to_code()),
            None => Err(unread),
        }
    }
}

fn coded_part<S: Scale>(text: &[u8], part: Part<Run>) -> Result<Part<u32>, ScaleFault>
    requires { Drawn text.now part }
    ensures { MatchResult result (λ out. CodedPart S.code S.text text.now part out × (reach out ≡ reach part)) (UnreadPart S.code S.text text.now part) }
{
    part.convert(&MarkCodes::<S> {
        text,
        scale: PhantomData,
    })
}

// Codes each part of `draft` in order, up to the first run that the scale does not read.
pub(crate) fn code_parts<S: Scale>(
    text: &[u8],
    draft: &Formula<Run>,
    fresh: &mut Formula<u32>,
) -> Result<(), ScaleFault>
    requires { AllDrawn text.now (parts_of draft.now) }
    ensures { MatchResult result (λ _. AllCoded S.code S.text text.now (parts_of draft.now) (parts_of fresh.new)) (FirstUnread S.code S.text text.now (parts_of draft.now)) }
{
    fresh.clear();
    for part in draft.parts() {
        let coded = coded_part::<S>(text, *part)?;
        fresh.push(coded).unwrap();
    }
    Ok(())
}
