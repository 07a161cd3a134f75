//! Names, numbers, wires, links and pairs.

ghost use Rattle.std.specs.Prelude.{◌≡◌};
ghost use Rattle.pt_graph_writer.specs.Text.{block_name};
ghost use Rattle.pt_types.specs.Lookups.{platform_name, actor_name};

use crate::encode::Encode;
use pt_blocks::Named;
use pt_tags::Name;
use pt_types::{Graph, Link, PairError, Wire};
use serde_json::{Value, json};
use std::alloc::{AllocError, Global};

/// The name of the block with this number; empty if there is no such block.
pub fn block_name(blocks: &[Named], block: u32) -> &str
    ensures { result.now ≡ block_name blocks.now block }
{
    match blocks.get(block as usize) {
        Some(block) => block.name.as_str(),
        None => "",
    }
}

impl Encode for Name {
    ghost use Rattle.std.specs.Prelude.{true};
    ghost use Rattle.serde_json.specs.Data.{string};

    ghost encoded = { λ graph blocks. string };

    ghost fits = { λ part. true };

    fn encode(
        &self,
        alloc: Global,
        _graph: &Graph,
        _blocks: &[Named],
    ) -> Result<Value, AllocError> {
        Value::try_from_str(alloc, self.as_str())
    }
}

impl Encode for Wire {
    ghost use Rattle.std.specs.Prelude.{true};
    ghost use Rattle.pt_graph_writer.specs.Text.{wire_data};

    ghost encoded = { λ graph blocks. wire_data graph };

    ghost fits = { λ part. true };

    fn encode(&self, alloc: Global, graph: &Graph, _blocks: &[Named]) -> Result<Value, AllocError> {
        let from = graph.actor_name(self.from);
        let to = graph.actor_name(self.to);
        json!(in alloc; [from, self.output, to, self.input])
    }
}

impl Encode for Link {
    ghost use Rattle.std.specs.Prelude.{true};
    ghost use Rattle.pt_graph_writer.specs.Text.{link_data};

    ghost encoded = { λ graph blocks. link_data graph };

    ghost fits = { λ part. true };

    fn encode(&self, alloc: Global, graph: &Graph, _blocks: &[Named]) -> Result<Value, AllocError> {
        let from = graph.actor_name(self.from);
        let to = graph.actor_name(self.to);
        json!(in alloc; {"from": from, "to": to, "delay": self.delay})
    }
}

impl Encode for PairError {
    ghost use Rattle.std.specs.Prelude.{true};
    ghost use Rattle.pt_graph_writer.specs.Text.{pair_data};

    ghost encoded = { λ graph blocks. pair_data graph };

    ghost fits = { λ part. true };

    fn encode(&self, alloc: Global, graph: &Graph, _blocks: &[Named]) -> Result<Value, AllocError> {
        let a = graph.platform_name(self.a);
        let b = graph.platform_name(self.b);
        json!(in alloc; [a, b, self.error])
    }
}

impl Encode for u32 {
    ghost use Rattle.std.specs.Prelude.{true};
    ghost use Rattle.pt_graph_writer.specs.Text.{natural};

    ghost encoded = { λ graph blocks. natural };

    ghost fits = { λ n. true };

    fn encode(
        &self,
        _alloc: Global,
        _graph: &Graph,
        _blocks: &[Named],
    ) -> Result<Value, AllocError> {
        Ok(Value::from(*self))
    }
}
