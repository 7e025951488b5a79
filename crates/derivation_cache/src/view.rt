//! Views, which find chains without waiting.
ghost use Rattle.std.specs.Prelude.{◌≡◌, ◌<◌, ◌^◌, ◌⊎◌, length, IfSome, MatchOption, Some, None};
ghost use Rattle.std.specs.Option.{option_copied};
ghost use Rattle.left_right.specs.Sides.{view as seat_view};
ghost use Rattle.module_graph.specs.Graph.{Shape};
ghost use Rattle.derivation_cache.specs.Known.{Extends, IsLeastPair, longer, pair_of, fitted};
ghost use Rattle.derivation_cache.specs.Views.{TellsPair};

use crate::found::Found;
use crate::pair::Pair;
use crate::rule::{ListReader, Looks};
use crate::told::Told;
use names_alias::Name;
use std::marker::Model;

/// What one caller finds: what is published, and what it was told of last.
#[derive(Drop)]
pub struct View {
    reader: Option<ListReader>,
    told: Told,
}

impl Model for View {
    ghost use Rattle.std.specs.Prelude.{◌≡◌, IfSome, Some};
    ghost use Rattle.left_right.specs.Sides.{view as seat_view};
    ghost use Rattle.derivation_cache.specs.Known.{Known};

    ghost Value = { Known };

    ghost view = { λ v. v.told };

    ghost invariant = { λ v. IfSome v.reader (λ r. seat_view r.place ≡ Some v.told.graph) };
}

/// What a pair's chain tells.
fn found_in(pair: &Pair, into: &mut [u32]) -> Found
    requires { length pair.now.chain.ordinals < 2 ^ 32 }
    ensures cost { result.cost ≡ pair.now.chain.cost }
    ensures length { result.length ≡ length pair.now.chain.ordinals }
    ensures into { into.new ≡ fitted pair.now.chain.ordinals into.old }
{
    let ordinals = pair.chain.ordinals.as_slice();
    let count = ordinals.len().min(into.len());
    into[..count].copy_from_slice(&ordinals[..count]);
    Found {
        cost: pair.chain.cost,
        length: ordinals.len() as u32,
    }
}

/// Looks in what is published now.
fn look(reader: ListReader, from: &Name, to: &Name, into: &mut [u32]) -> (ListReader, Option<Found>)
    ensures kept { (g : Shape) → seat_view reader.place ≡ Some g → seat_view result.0.place ≡ Some g }
    ensures found { (g : Shape) → seat_view reader.place ≡ Some g
        → MatchOption result.1 (into.new ≡ into.old)
        (λ found. TellsPair g from.now to.now found into.old into.new) }
{
    let reading = match reader.enter_as::<Looks>() {
        Ok(reading) => reading,
        Err(reader) => return (reader, None),
    };
    let found = look_in(reading.get(), from, to, into);
    (reading.leave(), found)
}

/// Looks in what is published now, where there is a reader.
fn look_first(
    reader: Option<ListReader>,
    from: &Name,
    to: &Name,
    into: &mut [u32],
) -> (Option<ListReader>, Option<Found>)
    ensures kept { (g : Shape) → IfSome reader (λ r. seat_view r.place ≡ Some g)
        → IfSome result.0 (λ r. seat_view r.place ≡ Some g) }
    ensures found { (g : Shape) → IfSome reader (λ r. seat_view r.place ≡ Some g)
        → MatchOption result.1 (into.new ≡ into.old)
        (λ found. TellsPair g from.now to.now found into.old into.new) }
{
    let Some(reader) = reader else {
        return (None, None);
    };
    let (reader, found) = look(reader, from, to, into);
    (Some(reader), found)
}

/// Looks in what was told.
fn look_in(told: &Told, from: &Name, to: &Name, into: &mut [u32]) -> Option<Found>
    ensures { MatchOption result
        ((pair_of told.now from.now to.now ≡ None) × (into.new ≡ into.old))
        (λ found. TellsPair told.now.graph from.now to.now found into.old into.new) }
{
    let pair = told.pair(from, to)?;
    Some(found_in(pair, into))
}

impl View {
    /// A view with what was told, and with a reader where there is one.
    pub(crate) fn over(reader: Option<ListReader>, told: Told) -> View
        requires { IfSome reader (λ r. seat_view r.place ≡ Some told.graph) }
        ensures { result ≡ told }
    {
        View { reader, told }
    }

    /// Keeps the longer of what was learnt and what is told.
    pub fn learn(&mut self, told: Told)
        requires { Extends told self.old ⊎ Extends self.old told }
        ensures longer { self.new ≡ longer self.old told }
        ensures kept { Extends self.new self.old }
        ensures learnt { Extends self.new told }
    {
        if self.told.len() < told.len() {
            self.told = told;
        }
    }

    /// The pair of these names, if the view has learnt of it.
    pub fn pair(&self, from: &Name, to: &Name) -> Option<&Pair>
        ensures found { option_copied result ≡ pair_of self.now from.now to.now }
        ensures least { IfSome result (λ pair. IsLeastPair self.now.graph pair.now
            × (pair.now.from ≡ from.now) × (pair.now.to ≡ to.now)) }
    {
        self.told.pair(from, to)
    }

    /// Finds the chain of a pair, and copies its first ordinals, as many as fit.
    ///
    /// It is the least chain of the graph, whoever added it. None comes only where the view has
    /// learnt of no such pair.
    pub fn chain(&mut self, from: &Name, to: &Name, into: &mut [u32]) -> Option<Found>
        ensures kept { self.new ≡ self.old }
        ensures answer { MatchOption result
            ((pair_of self.old from.now to.now ≡ None) × (into.new ≡ into.old))
            (λ found. TellsPair self.old.graph from.now to.now found into.old into.new) }
    {
        let (reader, found) = look_first(self.reader.take(), from, to, into);
        self.reader = reader;
        match found {
            Some(found) => Some(found),
            None => look_in(&self.told, from, to, into),
        }
    }
}
