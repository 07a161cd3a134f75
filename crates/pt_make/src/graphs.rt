//! The graph of a made input.

ghost use Rattle.std.specs.Prelude.{◌≡◌, ◌≤◌, ◌++◌, IfOk};
ghost use Rattle.pt_types.specs.Kinds.{visible_inputs, visible_outputs};
ghost use Rattle.pt_make.specs.Input as made;

use pt_tags::{List, Name};
use pt_types::{Actor, Graph, Kind, Link, USUAL_CLAIMS, Wire};
use std::alloc::{AllocError, Global};

/// The number of rows of each sensor, for a number from 1 to 100.
pub(crate) fn row_count(number: u32) -> u64
    ensures { result ≡ made.row_count number }
{
    100 * number as u64
}

/// The graph made from a number, 1 to 100.
pub fn made_graph(alloc: Global, number: u32) -> Result<Graph, AllocError>
    requires { number ≤ 100 }
    ensures { IfOk result (λ graph. graph ≡ made.made_graph number) }
{
    Ok(Graph {
        until: 100 * row_count(number) + 400,
        clock_error: 5,
        claims: USUAL_CLAIMS,
        platforms: List::new(platforms(alloc)?),
        actors: List::new(actors(alloc)?),
        wires: List::new(wires(alloc)?),
        links: List::new(links(alloc)?),
        clock_errors: List::new(Vec::new(alloc)),
    })
}

/// A name.
fn name(alloc: Global, text: &str) -> Result<Name, AllocError>
    ensures { IfOk result (λ name. name ≡ text.now) }
{
    Ok(Name::new(String::from_str(alloc, text)?))
}

/// The platforms.
fn platforms(alloc: Global) -> Result<Vec<Name>, AllocError>
    ensures { IfOk result (λ names. names.items ≡ made.platforms) }
{
    let p0 = name(alloc, "p0")?;
    let p1 = name(alloc, "p1")?;
    let p2 = name(alloc, "p2")?;
    let p3 = name(alloc, "p3")?;
    Ok(vec![in alloc; p0, p1, p2, p3]?)
}

/// An actor with the visible ports of its kind.
fn actor(alloc: Global, text: &str, platform: u32, kind: Kind) -> Result<Actor, AllocError>
    requires inputs { visible_inputs kind ≤ 8 }
    requires outputs { visible_outputs kind ≤ 8 }
    ensures { IfOk result (λ a. a ≡ made.actor text.now platform kind) }
{
    let inputs = kind.visible_inputs();
    let outputs = kind.visible_outputs();
    let name = name(alloc, text)?;
    Ok(Actor {
        name,
        platform,
        kind,
        inputs,
        outputs,
    })
}

/// The kind of a sensor whose rows are seen at most 10 microseconds after their times. No file of that name is read.
fn sensor(alloc: Global, file: &str) -> Result<Kind, AllocError>
    ensures { IfOk result (λ kind. kind ≡ Kind.Sensor file.now 10) }
{
    let file = name(alloc, file)?;
    Ok(Kind::Sensor { file, bound: 10 })
}

/// The actors, platform by platform.
fn actors(alloc: Global) -> Result<Vec<Actor>, AllocError>
    ensures { IfOk result (λ actors. actors.items ≡ made.actors) }
{
    let mut actors = at_p0(alloc)?;
    actors.append(&mut at_p1(alloc)?)?;
    actors.append(&mut at_p2(alloc)?)?;
    actors.append(&mut at_p3(alloc)?)?;
    Ok(actors)
}

fn at_p0(alloc: Global) -> Result<Vec<Actor>, AllocError>
    ensures { IfOk result (λ actors. actors.items ≡ made.at_p0) }
{
    let s0 = actor(alloc, "s0", 0, sensor(alloc, "s0.csv")?)?;
    let d0 = actor(alloc, "d0", 0, Kind::Delay { d: 100 })?;
    let w0 = actor(alloc, "w0", 0, Kind::Send { slack: 0 })?;
    Ok(vec![in alloc; s0, d0, w0]?)
}

fn at_p1(alloc: Global) -> Result<Vec<Actor>, AllocError>
    ensures { IfOk result (λ actors. actors.items ≡ made.at_p1) }
{
    let r1 = actor(alloc, "r1", 1, Kind::Receive)?;
    let s1 = actor(alloc, "s1", 1, sensor(alloc, "s1.csv")?)?;
    let a1 = actor(alloc, "a1", 1, Kind::Add)?;
    let d1 = actor(alloc, "d1", 1, Kind::Delay { d: 100 })?;
    let w1 = actor(alloc, "w1", 1, Kind::Send { slack: 0 })?;
    Ok(vec![in alloc; r1, s1, a1, d1, w1]?)
}

fn at_p2(alloc: Global) -> Result<Vec<Actor>, AllocError>
    ensures { IfOk result (λ actors. actors.items ≡ made.at_p2) }
{
    let r2 = actor(alloc, "r2", 2, Kind::Receive)?;
    let s2 = actor(alloc, "s2", 2, sensor(alloc, "s2.csv")?)?;
    let a2 = actor(alloc, "a2", 2, Kind::Add)?;
    let d2 = actor(alloc, "d2", 2, Kind::Delay { d: 100 })?;
    let w2 = actor(alloc, "w2", 2, Kind::Send { slack: 0 })?;
    Ok(vec![in alloc; r2, s2, a2, d2, w2]?)
}

fn at_p3(alloc: Global) -> Result<Vec<Actor>, AllocError>
    ensures { IfOk result (λ actors. actors.items ≡ made.at_p3) }
{
    let r3 = actor(alloc, "r3", 3, Kind::Receive)?;
    let s3 = actor(alloc, "s3", 3, sensor(alloc, "s3.csv")?)?;
    let a3 = actor(alloc, "a3", 3, Kind::Add)?;
    let t = actor(alloc, "t", 3, Kind::Sum)?;
    let out = actor(alloc, "out", 3, Kind::Actuator { slack: 50 })?;
    Ok(vec![in alloc; r3, s3, a3, t, out]?)
}

/// A wire from output 0 of an actor to an input of another.
fn wire(from: u32, to: u32, input: u32) -> Wire
    ensures { result ≡ made.made_wire from to input }
{
    Wire {
        from,
        output: 0,
        to,
        input,
    }
}

/// The wires, platform by platform.
fn wires(alloc: Global) -> Result<Vec<Wire>, AllocError>
    ensures { IfOk result (λ wires. wires.items ≡ made.made_wires) }
{
    Ok(vec![in alloc;
        wire(0, 1, 0),
        wire(1, 2, 0),
        wire(3, 5, 0),
        wire(4, 5, 1),
        wire(5, 6, 0),
        wire(6, 7, 0),
        wire(8, 10, 0),
        wire(9, 10, 1),
        wire(10, 11, 0),
        wire(11, 12, 0),
        wire(13, 15, 0),
        wire(14, 15, 1),
        wire(15, 16, 0),
        wire(16, 17, 0),
    ]?)
}

/// A link from a sender to a receiver, with a delay of 40 microseconds.
fn link(from: u32, to: u32) -> Link
    ensures { result ≡ made.link from to }
{
    Link {
        from,
        to,
        delay: 40,
    }
}

/// The links.
fn links(alloc: Global) -> Result<Vec<Link>, AllocError>
    ensures { IfOk result (λ links. links.items ≡ made.made_links) }
{
    Ok(vec![in alloc; link(2, 3), link(7, 8), link(12, 13)]?)
}
