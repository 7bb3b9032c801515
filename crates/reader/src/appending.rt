// Adding a part that is known to fit.
ghost use Rattle.std.specs.Prelude.{◌≡◌, [], ◌∷◌, ◌++◌, length};
ghost use Rattle.formula.specs.Formulas.{parts_of};
ghost use Rattle.formula.specs.Orders.{Fits};

use formula::{Formula, Part};

// Adds a part after the others, where it fits, and answers its number.
pub(crate) fn append<K: Copy>(out: &mut Formula<K>, part: Part<K>) -> usize
    requires { Fits part (parts_of out.old) }
    ensures items { parts_of out.new ≡ parts_of out.old ++ part ∷ [] }
    ensures value { result ≡ length (parts_of out.old) }
{
    out.push(part).unwrap()
}
