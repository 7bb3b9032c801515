// Whole formulas and whole texts.
ghost use Rattle.std.specs.Prelude.{◌-◌, ◌≤◌, [], length, IfOk, IfErr, MatchResult, OnErr, OnOk};
ghost use Rattle.text.specs.Faults.{Blames};
ghost use Rattle.reader.specs.Cursors.{rest};
ghost use Rattle.formula.specs.Formulas.{parts_of};
ghost use Rattle.reader.specs.Fronts.{NoFormula, NoWhole};
ghost use Rattle.reader.specs.Halts.{Fails, halt, Halts};
ghost use Rattle.reader.specs.Reads.{AllDrawn, Reads, Spelt};
ghost use Rattle.reader.specs.Told.{Tells, ToldBy};

use crate::appending::append;
use crate::readers::operators::unary_operator;
use crate::readers::{Cursor, Run};
use formula::{Formula, Part};
use text::TextFault;

// The most brackets that may be open at once.
const MAX_BRACKETS: usize = 12;

// Reads one formula in which at most `left` more brackets are open at once, and adds its parts to `out`. Answers the number
// of its last part. Cursor and parts are no struct: each contract would then also tell that it holds the same `&mut`.
fn formula(cursor: &mut Cursor<'_>, left: usize, out: &mut Formula<Run>) -> Result<usize, TextFault>
    requires { length (parts_of out.old) ≤ cursor.old.met }
    ensures drawn { AllDrawn cursor.old.text.now (parts_of out.old) → AllDrawn cursor.old.text.now (parts_of out.new) }
    ensures blames { IfErr result (Blames cursor.old.text.now) }
    ensures missing { OnErr result (NoFormula (rest cursor.old) left (24 - cursor.old.met)) }
    ensures halts { IfErr result (Halts cursor.old left) }
    ensures told { ToldBy result cursor.old cursor.new.at (parts_of out.old) (parts_of out.new) }
    ensures read { IfOk result (Reads cursor.old cursor.new left (parts_of out.old) (parts_of out.new)) }
{
    let Some(byte) = cursor.peek() else {
        return Err(cursor.misfit());
    };
    if byte == b'c' {
        return cursor.comparison(out);
    }
    if let Some(operator) = unary_operator(byte) {
        cursor.meet()?;
        cursor.pass(byte);
        cursor.open(left)?;
        let operand = formula(cursor, left - 1, out)?;
        cursor.expect(b')')?;
        return Ok(append(out, Part::Unary { operator, operand }));
    }
    cursor.open(left)?;
    let left_operand = formula(cursor, left - 1, out)?;
    cursor.expect(b')')?;
    let operator = cursor.binary_operator()?;
    cursor.open(left)?;
    let right_operand = formula(cursor, left - 1, out)?;
    cursor.expect(b')')?;
    Ok(append(
        out,
        Part::Binary {
            operator,
            left: left_operand,
            right: right_operand,
        },
    ))
}

// Reads a whole text. The parts that were read stay in `out` also where the text is refused.
pub fn read_text(text: &[u8], out: &mut Formula<Run>) -> Result<(), TextFault>
    ensures drawn { AllDrawn text.now (parts_of out.new) }
    ensures blames { IfErr result (Blames text.now) }
    ensures missing { OnErr result (NoWhole text.now) }
    ensures fails { IfErr result (Fails text.now) }
    ensures told { MatchResult result (λ _. Tells text.now 0 (length text.now) [] (parts_of out.new)) (λ e. Tells text.now 0 (halt e) [] (parts_of out.new)) }
    ensures read { OnOk result (Spelt text.now (parts_of out.new)) }
{
    out.clear();
    let mut cursor = Cursor {
        text,
        at: 0,
        met: 0,
    };
    formula(&mut cursor, MAX_BRACKETS, out)?;
    cursor.finish()
}
