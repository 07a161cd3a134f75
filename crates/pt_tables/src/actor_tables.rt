//! The tables of all actors, filled line by line.

ghost use Rattle.std.specs.Prelude.{◌≡◌, ◌++◌, ◌∷◌, ◌<◌, [], IfOk, List, OnOk, length, slice_set, slice_index_or, string_bytes};
ghost use Rattle.std.specs.List.{concat};
ghost use Rattle.pt_types.specs.declared.graph.Graph.{Graph};
ghost use Rattle.pt_types.specs.declared.firing.ActorFiring.{ActorFiring};
ghost use Rattle.pt_semantics.specs.Tables.{head, line, tables_text};
ghost use Rattle.pt_tables.specs.Gathered.{HasLine, has_table, texts_from};

use crate::table::Table;
use pt_tags::Tag;
use pt_types::{Actor, Kind};
use std::alloc::{AllocError, Global};
use std::marker::Model;

/// A table for each actor of a graph; only an actuator's gets lines. Contracts see each as its bytes.
#[derive(Drop)]
pub struct ActorTables {
    tables: Vec<Table>,
}

impl Model for ActorTables {
    ghost use Rattle.std.specs.Prelude.{List, ℕ};

    ghost Value = { List (List ℕ) };

    ghost view = { λ t. t.tables.items };
}

impl ActorTables {
    /// An empty table for each actor.
    pub fn new(alloc: Global, actors: &[Actor]) -> Result<ActorTables, AllocError>
        ensures { IfOk result (λ tables. tables ≡ texts_from 0 actors.now []) }
    {
        let mut tables = Vec::new(alloc);
        for _ in actors {
            tables.push(Table::new(alloc))?;
        }
        Ok(ActorTables { tables })
    }

    /// Appends the line of a firing of an actor, with this value at input 0, to its table; does nothing if the actor is not
    /// an actuator.
    #[inline(always)]
    pub fn push(
        &mut self,
        actors: &[Actor],
        actor: u32,
        tag: Tag,
        value: i64,
    ) -> Result<(), AllocError>
        ensures { (xs : List ActorFiring) (x : ActorFiring) →
            self.old ≡ texts_from 0 actors.now xs → HasLine actor tag value x →
            OnOk result (self.new ≡ texts_from 0 actors.now (xs ++ x ∷ [])) }
    {
        let number = actor as usize;
        if !has_table(actors, actor) || number >= self.tables.len() {
            return Ok(());
        }
        self.push_line(number, actors[number].name.as_str(), tag, value)
    }

    /// Appends a line to table `number`. Not inlined, since most firings are of other actors.
    #[inline(never)]
    fn push_line(
        &mut self,
        number: usize,
        name: &str,
        tag: Tag,
        value: i64,
    ) -> Result<(), AllocError>
        requires { number < length self.old }
        ensures { OnOk result (self.new ≡ slice_set self.old number
            (slice_index_or self.old number [] ++ line name.now tag value)) }
    {
        self.tables[number].push_line(name, tag, value)
    }

    /// The header line `actuator,time,step,value`, and then the tables, as one text.
    pub fn text(&self, alloc: Global) -> Result<String, AllocError>
        ensures { IfOk result (λ text. (g : Graph) (xs : List ActorFiring) →
            self.now ≡ texts_from 0 g.actors xs → string_bytes text ≡ tables_text g xs) }
    {
        let mut text = String::new(alloc);
        push_head(&mut text)?;
        push_tables(&mut text, self.tables.as_slice())?;
        Ok(text)
    }
}

/// Whether actor `number` is an actuator.
pub fn has_table(actors: &[Actor], number: u32) -> bool
    ensures { result ≡ has_table actors.now number }
{
    match actors.get(number as usize) {
        Some(actor) => matches!(&actor.kind, Kind::Actuator { .. }),
        None => false,
    }
}

/// Appends the header line.
fn push_head(text: &mut String) -> Result<(), AllocError>
    ensures { OnOk result (string_bytes text.new ≡ string_bytes text.old ++ head) }
{
    text.push_str("actuator,time,step,value\n")
}

/// Appends tables, one after another.
fn push_tables(text: &mut String, tables: &[Table]) -> Result<(), AllocError>
    ensures { OnOk result (string_bytes text.new ≡ string_bytes text.old ++ concat tables.now) }
{
    for table in tables {
        text.push_str(table.as_str())?;
    }
    Ok(())
}
