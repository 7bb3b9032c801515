// The scale of stages: how far a slider has come on its way.
ghost use Rattle.std.specs.Prelude.{◌≡◌};
ghost use Rattle.scale.specs.Numbered.{Leans};
ghost use Rattle.scale.specs.Stages.{stage_at, stage_code, stage_named, stage_text, stage_number, stage_picked, stages};
ghost use Rattle.scale.specs.declared.stages.Stage.TheVariants.{Off};
ghost use Rattle.std.proofs.Common.{rules};

use crate::cuts::Cut;
use crate::held::Word;
use crate::numbered::{Numbered, Row, pick_number};
use crate::scales::Scale;

#[derive(Clone, Copy, PartialEq, Eq, PartialOrd, Ord, Debug)]
pub enum Stage {
    Off,
    Leaving,
    Travel,
    Arriving,
    On,
}

impl Numbered for Stage {
    const ROW: Row = Row {
        least: 0,
        past: 5,
        rest: 0,
    };

    ghost ROW = { stages };

    ghost number = { stage_number };

    fn to_number(self) -> i32 {
        self as i32
    }
}

// The stage of a number from 0 to 4.
fn stage_at(number: u32) -> Stage
    ensures { result ≡ stage_at number }
{
    match number {
        0 => Stage::Off,
        1 => Stage::Leaving,
        2 => Stage::Travel,
        3 => Stage::Arriving,
        _ => Stage::On,
    }
}

impl Scale for Stage {
    ghost rank = { stage_code };

    ghost code = { stage_code };

    ghost named = { stage_named };

    ghost text = { stage_text };

    ghost resting = { Off };

    ghost picked = { stage_picked };

    ghost ranks_apart = { Prim.search rules };

    ghost ranks_fit = { Prim.search rules };

    ghost codes_fit = { Prim.search rules };

    ghost codes_name = { Prim.search rules };

    ghost texts_apart = { Prim.search rules };

    ghost texts_run = { Prim.search rules };

    ghost picks = { Prim.search rules };

    fn is_before(self, other: Stage) -> bool {
        self < other
    }

    fn to_code(self) -> u32 {
        self as u32
    }

    fn of_code(number: u32) -> Option<Stage> {
        if number < 5 {
            Some(stage_at(number))
        } else {
            None
        }
    }

    fn rest() -> Stage {
        Self::Off
    }

    fn to_text(self) -> Word {
        match self {
            Stage::Off => Word::new(b"off"),
            Stage::Leaving => Word::new(b"leaving"),
            Stage::Travel => Word::new(b"travel"),
            Stage::Arriving => Word::new(b"arriving"),
            Stage::On => Word::new(b"on"),
        }
    }

    fn of_text(run: &[u8]) -> Option<Stage> {
        match run {
            b"off" => Some(Stage::Off),
            b"leaving" => Some(Stage::Leaving),
            b"travel" => Some(Stage::Travel),
            b"arriving" => Some(Stage::Arriving),
            b"on" => Some(Stage::On),
            _ => None,
        }
    }

    fn pick(lower: Cut<Stage>, upper: Cut<Stage>) -> Option<Stage>
        ensures value { result ≡ stage_picked lower upper }
        ensures leans { Leans stage_code Off lower upper result }
    {
        pick_number(lower, upper).map(|number| stage_at(number as u32))
    }
}
