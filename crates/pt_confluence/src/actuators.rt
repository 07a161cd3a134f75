//! The tables of the actuators, directly from the recorded turns.

ghost use Rattle.std.specs.Prelude.{◌≡◌, ◌<◌, ◌++◌, ◌∷◌, [], ℕ, IfOk, List, OnOk, Some, flat_map, length, map, slice_get, string_bytes};
ghost use Rattle.pt_types.specs.declared.firing.ActorFiring.{ActorFiring};
ghost use Rattle.pt_types.specs.declared.firing.Task.{Task};
ghost use Rattle.pt_types.specs.declared.rows.Row.{Row};
ghost use Rattle.pt_types.specs.Ports.{at_port};
ghost use Rattle.pt_semantics.specs.Firing.{or_zero};
ghost use Rattle.pt_tables.specs.Gathered.{texts_from};
ghost use Rattle.pt_confluence.specs.Gathered.{AreTables, HaveFinished, by_task};

use pt_history::History;
use pt_offsets::Plan;
use pt_tables::{ActorTables, has_table};
use pt_turn::Platform;
use pt_types::{Actor, Ports};
use std::alloc::{AllocError, Global};

/// The tables of a plan's actuators as text, from the claims of its finished platforms. They are those of the meaning: a claim of
/// actuator `out` at 150.0 with input 14 is the line `out,150,0,14`.
///
/// An actuator's claims are all on its platform, in the order of their tags, so nothing is sorted: each becomes a line of
/// its table as the recorded turns are read.
pub fn tables_of(alloc: Global, plan: &Plan, platforms: &[Platform]) -> Result<String, AllocError>
    ensures { IfOk result (λ text. (rows : ℕ → List Row) →
        HaveFinished plan.now rows platforms.now → AreTables plan.now rows (string_bytes text)) }
{
    let actors = plan.graph().actors.as_slice();
    let mut tables = ActorTables::new(alloc, actors)?;
    for platform in platforms {
        push_history(&mut tables, actors, platform.history())?;
    }
    tables.text(alloc)
}

/// Appends the lines of the claims of recorded turns.
fn push_history(
    tables: &mut ActorTables,
    actors: &[Actor],
    history: &History,
) -> Result<(), AllocError>
    ensures { (xs : List ActorFiring) → tables.old ≡ texts_from 0 actors.now xs →
        OnOk result (tables.new ≡ texts_from 0 actors.now
        (xs ++ map by_task (flat_map (λ turn. turn.claimed) history.now.turns))) }
{
    for number in 0..history.claims() as usize {
        push_claim(tables, actors, history, number)?;
    }
    Ok(())
}

/// Appends the line of a claim. Its inputs are read only if it is an actuator's, since no other has a line.
fn push_claim(
    tables: &mut ActorTables,
    actors: &[Actor],
    history: &History,
    number: usize,
) -> Result<(), AllocError>
    requires { number < length (flat_map (λ turn. turn.claimed) history.now.turns) }
    ensures { (xs : List ActorFiring) (task : Task) →
        slice_get (flat_map (λ turn. turn.claimed) history.now.turns) number ≡ Some task →
        tables.old ≡ texts_from 0 actors.now xs →
        OnOk result (tables.new ≡ texts_from 0 actors.now (xs ++ by_task task ∷ [])) }
{
    if !has_table(actors, history.mark(number).actor) {
        return Ok(());
    }
    let task = history.task(number);
    tables.push(actors, task.actor, task.tag, first_value(&task.inputs))
}

/// The value at input 0; 0 if there is none.
fn first_value(inputs: &Ports) -> i64
    ensures { result ≡ or_zero (at_port inputs.now 0) }
{
    inputs.get(0).unwrap_or(0)
}
