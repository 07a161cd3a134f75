//! The states of the actors.

ghost use Rattle.std.specs.Prelude.{◌≡◌, ◌<◌, length};
ghost use Rattle.pt_semantics.specs.Meaning.{put_state};
ghost use Rattle.pt_turn.specs.Fields.State.{states_in};

/// Sets the state of an actor.
pub fn set_state(states: &mut Vec<i64>, actor: u32, value: i64)
    requires actor { actor < length states.old.items }
    ensures states { states_in states.new.items
        ≡ put_state (states_in states.old.items) actor value }
    ensures len { length states.new.items ≡ length states.old.items }
{
    states[actor as usize] = value;
}
