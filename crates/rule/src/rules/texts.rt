// Making a rule, asking for its formula and reading a text into it.
ghost use Rattle.std.specs.Prelude.{◌≡◌, [], length, IfOk, Err, MatchBool, MatchResult, ◌==◌};
ghost use Rattle.formula.specs.Formulas.{parts_of};
ghost use Rattle.reader.specs.Blame.{BlamedOnly, Faultless};
ghost use Rattle.reader.specs.Codings.{AllCoded, FirstUnread};
ghost use Rattle.reader.specs.Reads.{AllDrawn};
ghost use Rattle.rule.specs.Rules.{rule_parts};
ghost use Rattle.reader.specs.Sayings.{Refuses, SaysOnly, Sized, Unsaid};

use crate::codings::code_parts;
use crate::rules::Rule;
use formula::Formula;
use reader::read_text;
use scale::{Scale, ScaleFault};
use std::alloc::{AllocError, Global};
use text::TextFault;

// The most bytes that a text can have.
const MAX_TEXT: usize = 512;

impl Rule {
    // A blank rule.
    pub fn new(heap: Global) -> Result<Rule, AllocError>
        ensures { IfOk result (λ rule. rule_parts rule ≡ []) }
    {
        let formula = Formula::new(heap)?;
        let fresh = Formula::new(heap)?;
        let draft = Formula::new(heap)?;
        Ok(Rule {
            formula,
            fresh,
            draft,
        })
    }

    pub fn formula(&self) -> &Formula<u32>
        ensures { parts_of result.now ≡ rule_parts self.now }
    {
        &self.formula
    }

    pub fn is_blank(&self) -> bool
        ensures { result ≡ (length (rule_parts self.now) == 0) }
    {
        self.formula.is_blank()
    }

    // Reads a text whose constants are marks of the scale `S`. A refused text leaves the rule as it was.
    pub fn read<S: Scale>(&mut self, text: &[u8]) -> Result<(), TextFault>
        ensures said { MatchResult result (λ _. SaysOnly S.code S.text text.now (rule_parts self.new)) (λ e. Refuses S.code S.text text.now e × Unsaid S.code S.text text.now × (rule_parts self.new ≡ rule_parts self.old)) }
        ensures blamed { MatchResult result (λ _. Faultless S.text text.now) (λ e. BlamedOnly S.text text.now e) }
    {
        if !has_length(text) {
            return Err(TextFault::Length);
        }
        self.prepare::<S>(text)?;
        std::mem::swap(&mut self.formula, &mut self.fresh);
        Ok(())
    }

    // Reads a text into `fresh`.
    fn prepare<S: Scale>(&mut self, text: &[u8]) -> Result<(), TextFault>
        requires { Sized text.now }
        ensures same { self.new.formula ≡ self.old.formula }
        ensures cases { MatchResult result (λ _. SaysOnly S.code S.text text.now (parts_of self.new.fresh)) (λ e. Refuses S.code S.text text.now e × Unsaid S.code S.text text.now) }
        ensures blamed { MatchResult result (λ _. Faultless S.text text.now) (λ e. BlamedOnly S.text text.now e) }
    {
        let form = read_text(text, &mut self.draft);
        let coded = self.code::<S>(text);
        earlier(coded, form)
    }

    // Codes the draft into `fresh`.
    fn code<S: Scale>(&mut self, text: &[u8]) -> Result<(), ScaleFault>
        requires { AllDrawn text.now (parts_of self.old.draft) }
        ensures same { self.new.formula ≡ self.old.formula }
        ensures cases { MatchResult result (λ _. AllCoded S.code S.text text.now (parts_of self.old.draft) (parts_of self.new.fresh)) (FirstUnread S.code S.text text.now (parts_of self.old.draft)) }
    {
        code_parts::<S>(text, &self.draft, &mut self.fresh)
    }
}

// The fault that is told. Every run that was met starts before the fault of form, if there is one.
fn earlier(coded: Result<(), ScaleFault>, form: Result<(), TextFault>) -> Result<(), TextFault>
    ensures { MatchResult coded (λ _. result ≡ form) (λ fault. result ≡ Err (TextFault.Scale fault)) }
{
    coded?;
    form
}

// Whether a rule can be as long as the text.
fn has_length(text: &[u8]) -> bool
    ensures { MatchBool result (Sized text.now) (Sized text.now → ⊥) }
{
    !text.is_empty() && text.len() <= MAX_TEXT
}
