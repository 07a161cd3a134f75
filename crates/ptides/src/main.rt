//! The program `ptides`: runs the command of its command line in the current folder.
//!
//! It makes the blocks that the program ships, and runs the command by `run` of pt_program. The program ends with its status.
#![tactic(auto)]

ghost use Rattle.std.specs.Prelude.{◌≡◌, pos};
ghost use Rattle.pt_semantics.specs.Laws.{law_value};
ghost use Rattle.pt_types.specs.declared.kind.Law.TheVariants.{Weighted};

use pt_blocks::{Function, clip100, dead5, greatest, least, shipped_blocks};
use pt_program::{NO_MEMORY, run};
use pt_types::Law;
use std::process::ExitCode;

/// The mean of both, rounded toward zero.
fn mean(a: i64, b: i64) -> i64
    ensures { result ≡ law_value (Weighted (pos 1) (pos 2)) a b }
{
    pt_actors::law_value(&Law::Weighted { num: 1, den: 2 }, a, b)
}

fn main(rt: HostRuntime) -> ExitCode {
    let middle = Law::Middle {
        low: -100,
        high: 100,
    };
    let blocks = shipped_blocks(
        rt.alloc(),
        Function::new(least, Law::Least),
        Function::new(greatest, Law::Greatest),
        Function::new(clip100, middle),
        Function::new(dead5, Law::Deadband { width: 5 }),
        Function::new(mean, Law::Weighted { num: 1, den: 2 }),
    );
    let Ok(mut blocks) = blocks else {
        return ExitCode::from(NO_MEMORY);
    };
    ExitCode::from(run(&rt, &rt, &mut blocks))
}
