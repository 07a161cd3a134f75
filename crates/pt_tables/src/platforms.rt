//! The log of platforms.

ghost use Rattle.std.specs.Prelude.{◌≡◌, ◌++◌, ◌≤◌, OnErr, OnOk, flat_map};
ghost use Rattle.pt_io.specs.Calls.{writing};
ghost use Rattle.pt_io.specs.Causes.{Appends, AppendsPart, Rose};
ghost use Rattle.pt_semantics.specs.Lists.{Each};
ghost use Rattle.pt_tables.specs.Held.{IsHeldTurn};
ghost use Rattle.pt_tables.specs.Log.{log_head};
ghost use Rattle.pt_tables.specs.Platforms.{histories, platform_lines};
ghost use Rattle.pt_tables.specs.Putting.{IsPartPut, IsPut};

use crate::held::turns_hold;
use crate::putting::put_turns;
use pt_io::{PutFault, Sink};
use pt_turn::Platform;

/// That 64 bits hold the numbers in all turns of some platforms, as their types say.
pub fn platforms_hold(platforms: &[Platform])
    ensures { Each (Each IsHeldTurn) (histories platforms.now) }
{
    for platform in platforms {
        turns_hold(platform.history());
    }
}

/// Puts the log of some platforms: the first line `log`, and then the lines of all turns of each platform, with the graph of
/// its plan and its own number. Each line is put as it is made, and no memory is taken. A turn of platform p at reading 61 that
/// claims task 0 of sensor s at tag 50.0 has the lines `turn,p,61,61,1` and `claim,0,s,50,0`.
pub fn put_log<K: Sink>(out: &mut K, platforms: &[Platform]) -> Result<(), PutFault>
    ensures all { OnOk result (Appends (K.written out.old) (K.written out.new)
        (log_head ++ flat_map platform_lines platforms.now)) }
    ensures uncounted { OnOk result (K.faults out.new ≡ K.faults out.old) }
    ensures part { OnErr result (AppendsPart (K.written out.old) (K.written out.new)
        (log_head ++ flat_map platform_lines platforms.now)) }
    ensures failed { OnErr result (Rose (K.faults out.old) (K.faults out.new)) }
    ensures grows { K.faults out.old ≤ K.faults out.new }
{
    out.put(b"log\n")?;
    put_platforms(out, platforms)
}

/// Puts the lines of the turns of each of some platforms.
fn put_platforms<K: Sink>(out: &mut K, platforms: &[Platform]) -> Result<(), PutFault>
    ensures all { OnOk result (IsPut (writing K.Sink out.old out.new)
        (flat_map platform_lines platforms.now)) }
    ensures part { OnErr result (IsPartPut (writing K.Sink out.old out.new)
        (flat_map platform_lines platforms.now)) }
{
    for platform in platforms {
        put_platform(out, platform)?;
    }
    Ok(())
}

/// Puts the lines of the turns of a platform.
fn put_platform<K: Sink>(out: &mut K, platform: &Platform) -> Result<(), PutFault>
    ensures all { OnOk result (IsPut (writing K.Sink out.old out.new)
        (platform_lines platform.now)) }
    ensures part { OnErr result (IsPartPut (writing K.Sink out.old out.new)
        (platform_lines platform.now)) }
{
    put_turns(
        out,
        platform.plan().graph(),
        platform.number(),
        platform.history(),
    )
}
