//! The state with which a platform opens.

ghost use Rattle.std.specs.Prelude.{◌≡◌, [], None, false, IfOk, map};
ghost use Rattle.pt_semantics.specs.Platform.{opened};
ghost use Rattle.pt_semantics.specs.Rows.{FitRows};
ghost use Rattle.pt_offsets.specs.Plans.{IsAdmitted};
ghost use Rattle.pt_turn.specs.Fields.State.{rows_at_sensors, state_of, IsSound};
ghost use Rattle.pt_turn.specs.Fields.Sensors.{AreSensors};
ghost use Rattle.pt_turn.specs.Handed.{rows_handed, unentered, AreHanded};

use crate::pending_rows::all_unentered;
use crate::starting_events::starting;
use crate::starting_states::first_states;
use crate::state::{Fields, OpenClaims, Outbox};
use pt_offsets::Plan;
use pt_sensors::SensorRows;
use pt_tags::Memory;
use std::alloc::Global;

/// The state with which a platform opens, given the rows of its sensors in the order of the graph.
pub fn open_fields(
    alloc: Global,
    plan: &Plan,
    platform: u32,
    rows: Vec<SensorRows>,
) -> Result<Fields, Memory>
    requires { AreHanded plan.now.graph platform rows.items }
    ensures admitted { IsAdmitted plan.now }
    ensures opened { IfOk result (λ fields.
        state_of fields [] ≡ opened plan.now.graph platform
        (rows_at_sensors fields.sensors.items)) }
    ensures rows { IfOk result (λ fields.
        rows_at_sensors fields.sensors.items ≡ rows_handed rows.items) }
    ensures entries { IfOk result (λ fields. fields.sensors.items ≡ map unentered rows.items) }
    ensures fit { IfOk result (λ fields.
        FitRows plan.now.graph (rows_at_sensors fields.sensors.items)) }
    ensures sound { IfOk result (λ fields. IsSound plan.now.graph fields) }
    ensures sensors { IfOk result (λ fields. AreSensors plan.now.graph fields.sensors.items) }
    ensures open_claims { IfOk result (λ fields. fields.open_claims.items ≡ []) }
    ensures outbox { IfOk result (λ fields. fields.outbox.items ≡ []) }
    ensures reading { IfOk result (λ fields. fields.reading ≡ None) }
    ensures closed { IfOk result (λ fields. fields.closed ≡ false) }
    ensures claims { IfOk result (λ fields. fields.claims ≡ 0) }
{
    let graph = plan.graph();
    let sensors = all_unentered(alloc, rows)?;
    let states = first_states(alloc, graph)?;
    let outbox = Outbox::new(alloc, graph.links.as_slice().len())?;
    let queue = starting(alloc, graph, platform)?;
    Ok(Fields {
        queue,
        open_claims: OpenClaims::new(alloc),
        states,
        sensors,
        outbox,
        reading: None,
        closed: false,
        claims: 0,
        none_safe_before: 0,
    })
}
