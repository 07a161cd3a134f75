//! The result of a firing, for each kind of actor.

ghost use Rattle.std.specs.Prelude.{◌≡◌, IsTrue, OnOk, [], Some, ◌*ℤ◌, ◌+ℤ◌, ◌≤ℤ◌, int_div, int_lt, pos};
ghost use Rattle.pt_types.specs.Kinds.{kind_is_lawful};
ghost use Rattle.pt_semantics.specs.Laws.{nearest};
ghost use Rattle.pt_semantics.specs.Lists.{first_of};
ghost use Rattle.pt_semantics.specs.Firing.{fired, gives, identity, keep_if, lift};
ghost use Rattle.pt_actors.specs.Fired.{IsFiredOnto};

use crate::arithmetic::{difference, or_zero, scaled, sum};
use crate::done::Done;
use crate::lanes::{lowest, write_lanes};
use crate::machine::machine;
use crate::stored::block_value;
use pt_blocks::Blocks;
use pt_tags::Memory;
use pt_types::{Done as Record, Fired, Kind, Ports, Task};

/// Fires a task's actor, which is of this kind, and gives the task with the result.
///
/// A block and the guard of a machine's row call the stored function, if the block with their number has their law; else
/// they compute the law's value. Both give the same value.
///
/// A scale by 3/2 whose input 0 is 5 has 7 at output 0 (7.5, rounded down), and its state stays. A count in state 2 has 3 at
/// output 0, and state 3.
pub fn fire(blocks: &Blocks, kind: &Kind, task: &Task) -> Done
    requires { IsTrue (kind_is_lawful kind.now) }
    ensures task { result.task ≡ task.now }
    ensures fired { result.fired ≡ fired kind.now task.now.state task.now.inputs }
{
    let mut done = Done::new(task);
    fire_done(blocks, kind, &mut done);
    done
}

/// Fires a task's actor, as `fire`, and appends the task with the result to `results`, where the outputs are written in place.
pub fn fire_onto(
    blocks: &Blocks,
    kind: &Kind,
    task: &Task,
    results: &mut Vec<Done>,
) -> Result<(), Memory>
    requires { IsTrue (kind_is_lawful kind.now) }
    ensures { OnOk result (IsFiredOnto kind.now task.now results.old.items results.new.items) }
{
    let place = results.len();
    results.reserve(1)?;
    results.push_reserved(Done::new(task));
    fire_done(blocks, kind, &mut results[place]);
    Ok(())
}

/// Fires the actor of a task, which is of this kind, and writes the result beside the task.
#[inline(always)]
fn fire_done(blocks: &Blocks, kind: &Kind, done: &mut Done)
    requires { IsTrue (kind_is_lawful kind.now) }
    ensures task { done.new.task ≡ done.old.task }
    ensures fired { done.new.fired ≡ fired kind.now done.old.task.state done.old.task.inputs }
{
    let Record {
        task,
        fired: result,
    } = &mut done.both;
    result.state = fired(
        Some(blocks),
        kind,
        task.state,
        &task.inputs,
        &mut result.outputs,
    );
}

/// The state and the outputs of a firing with this state and these inputs. Stored functions are not called.
///
/// An actor reacts to all its inputs of one tag together (RTAS 2007). What each kind does is this project's own
/// choice.
pub fn fire_kind(kind: &Kind, state: i64, inputs: &Ports) -> Fired
    requires { IsTrue (kind_is_lawful kind.now) }
    ensures { result ≡ fired kind.now state inputs.now }
{
    let mut outputs = Ports::new();
    let state = fire_into(kind, state, inputs, &mut outputs);
    Fired { state, outputs }
}

/// Writes the outputs of a firing, as `fire_kind` gives them, over `outputs`, and returns the state after it.
pub fn fire_into(kind: &Kind, state: i64, inputs: &Ports, outputs: &mut Ports) -> i64
    requires { IsTrue (kind_is_lawful kind.now) }
    ensures state { result ≡ (fired kind.now state inputs.now).state }
    ensures outputs { outputs.new ≡ (fired kind.now state inputs.now).outputs }
{
    fired(None, kind, state, inputs, outputs)
}

/// Writes the outputs of a firing, and returns the state after it; stored functions are called if `blocks` is given.
#[inline(always)]
fn fired(
    blocks: Option<&Blocks>,
    kind: &Kind,
    state: i64,
    inputs: &Ports,
    outputs: &mut Ports,
) -> i64
    requires { IsTrue (kind_is_lawful kind.now) }
    ensures state { result ≡ (fired kind.now state inputs.now).state }
    ensures outputs { outputs.new ≡ (fired kind.now state inputs.now).outputs }
{
    match kind {
        Kind::Sensor { .. } | Kind::Receive | Kind::Send { .. } | Kind::Delay { .. } => {
            gives(outputs, state, inputs.get(0))
        }
        Kind::Actuator { .. } => gives(outputs, state, None),
        Kind::Scale { num, den } => gives(outputs, state, scale(inputs.get(0), *num, *den)),
        Kind::Shift { by } => gives(outputs, state, shift(inputs.get(0), *by)),
        Kind::Add => {
            let total = sum(or_zero(inputs.get(0)), or_zero(inputs.get(1)));
            gives(outputs, state, Some(total))
        }
        Kind::Sub => {
            let rest = difference(or_zero(inputs.get(0)), or_zero(inputs.get(1)));
            gives(outputs, state, Some(rest))
        }
        Kind::Above { limit } => gives(outputs, state, above(inputs.get(0), *limit)),
        Kind::Merge { .. } => gives(outputs, state, merged(inputs)),
        Kind::Count => gives_state(outputs, sum(state, 1)),
        Kind::Sum => gives_state(outputs, sum(state, or_zero(inputs.get(0)))),
        Kind::Latch => latch(state, inputs, outputs),
        Kind::Machine { rows, .. } => {
            let value = or_zero(inputs.get(0));
            machine(blocks, rows.as_slice(), state, value, outputs)
        }
        Kind::Every { .. } => begin(state, outputs),
        Kind::Block { block, law } => {
            let (a, b) = (or_zero(inputs.get(0)), or_zero(inputs.get(1)));
            gives(outputs, state, Some(block_value(blocks, *block, law, a, b)))
        }
        Kind::Lanes { cells } => {
            write_lanes(cells.as_slice(), inputs, outputs);
            state
        }
    }
}

/// Writes this value as output 0, and returns this state.
#[inline(always)]
fn gives(outputs: &mut Ports, state: i64, value: Option<i64>) -> i64
    ensures state { result ≡ state }
    ensures outputs { outputs.new ≡ (gives state value).outputs }
{
    *outputs = Ports::first(value);
    state
}

/// Writes this state as output 0, and returns it.
#[inline(always)]
fn gives_state(outputs: &mut Ports, state: i64) -> i64
    ensures state { result ≡ state }
    ensures outputs { outputs.new ≡ (gives state (Some state)).outputs }
{
    gives(outputs, state, Some(state))
}

fn scale(a: Option<i64>, num: i64, den: i64) -> Option<i64>
    requires { pos 1 ≤ℤ den }
    ensures { result ≡ lift (λ a. nearest (int_div (a *ℤ num) den)) a }
{
    match a {
        Some(a) => Some(scaled(a, num, den)),
        None => None,
    }
}

fn shift(a: Option<i64>, by: i64) -> Option<i64>
    ensures { result ≡ lift (λ a. nearest (a +ℤ by)) a }
{
    match a {
        Some(a) => Some(sum(a, by)),
        None => None,
    }
}

fn above(a: Option<i64>, limit: i64) -> Option<i64>
    ensures { result ≡ keep_if (λ a. int_lt limit a) a }
{
    match a {
        Some(a) if a > limit => Some(a),
        _ => None,
    }
}

/// The value of the lowest input that has one.
#[inline(never)]
fn merged(inputs: &Ports) -> Option<i64>
    ensures { result ≡ first_of identity inputs.now }
{
    lowest(&inputs.values())
}

/// Stores the value of input 0, and gives the stored value if input 1 has one.
fn latch(state: i64, inputs: &Ports, outputs: &mut Ports) -> i64
    ensures state { result ≡ (fired Kind.Latch state inputs.now).state }
    ensures outputs { outputs.new ≡ (fired Kind.Latch state inputs.now).outputs }
{
    let kept = inputs.get(0).unwrap_or(state);
    let shown = match inputs.get(1) {
        Some(_) => Some(kept),
        None => None,
    };
    gives(outputs, kept, shown)
}

/// Gives its count, and starts the next period through its hidden output 1.
fn begin(state: i64, outputs: &mut Ports) -> i64
    ensures state { result ≡ (fired (Kind.Every 0 0) state []).state }
    ensures outputs { outputs.new ≡ (fired (Kind.Every 0 0) state []).outputs }
{
    *outputs = Ports::from_values([Some(state), Some(0), None, None, None, None, None, None]);
    sum(state, 1)
}
