//! The cache, to which chains are added.
ghost use Rattle.std.specs.Prelude.{◌≡◌, ◌<◌, ◌≤◌, drop, IfOk, IfSome, MatchResult};
ghost use Rattle.std.specs.Option.{option_copied};
ghost use Rattle.core.specs.Mem.{manually_drop_value};
ghost use Rattle.left_right.specs.Sides.{view as seat_view};
ghost use Rattle.derivation_cache.specs.Known.{none_known, added, pair_by, pair_of, AllLeast, Extends, IsLeastPair};
ghost use Rattle.derivation_cache.specs.Views.{Publishes};

use crate::pair::Pair;
use crate::rule::{ListWriter, Looks, Notes};
use crate::told::Told;
use crate::view::View;
use chain_search::Chain;
use core::mem::replace_with;
use module_graph::Graph;
use names_alias::Name;
use std::alloc::{AllocError, Global};
use std::marker::Model;
use std::mem::ManuallyDrop;
use std::sync::Wait;

/// Least chains of one graph, each added once.
///
/// `end` ends it. One that is dropped isn't ended: its writer is kept for good, so that a value that
/// has a cache may be dropped.
#[derive(Drop)]
pub struct Cache {
    writer: ManuallyDrop<ListWriter>,
    told: Told,
}

impl Model for Cache {
    ghost use Rattle.std.specs.Prelude.{drop};
    ghost use Rattle.core.specs.Mem.{manually_drop_value};
    ghost use Rattle.left_right.specs.Sides.{view as seat_view};
    ghost use Rattle.derivation_cache.specs.Known.{Known};
    ghost use Rattle.derivation_cache.specs.Views.{Publishes};

    ghost Value = { Known };

    ghost view = { λ c. c.told };

    ghost invariant = { λ c. let w = manually_drop_value c.writer in
        Publishes c.told.graph (seat_view w.desk.place) w.desk.shown.value
        (drop w.behind w.log.items) };
}

/// Shows a list to all readers.
fn publish<R: Wait>(
    rt: &R,
    mut writer: ListWriter,
    list: Told,
) -> (ListWriter, Result<(), AllocError>)
    requires knows { Publishes list.graph (seat_view writer.desk.place) writer.desk.shown.value
        (drop writer.behind writer.log.items) }
    requires least { AllLeast list }
    ensures { Publishes list.graph (seat_view result.0.desk.place) result.0.desk.shown.value
        (drop result.0.behind result.0.log.items) }
{
    if writer.append(list).is_err() {
        return (writer, Err(AllocError));
    }
    writer.publish_as::<Looks, R>(rt)
}

/// A writer that isn't dropped with its cache.
fn kept(writer: ListWriter) -> ManuallyDrop<ListWriter>
    ensures { manually_drop_value result ≡ writer }
{
    // `Cache::end` takes it out, and ends it.
    unsafe { ManuallyDrop::new_unchecked(writer) }
}

/// The same for a writer that is kept.
fn publish_kept<R: Wait>(
    rt: &R,
    writer: ManuallyDrop<ListWriter>,
    list: Told,
) -> (ManuallyDrop<ListWriter>, Result<(), AllocError>)
    requires knows { let w = manually_drop_value writer in Publishes list.graph (seat_view w.desk.place)
        w.desk.shown.value (drop w.behind w.log.items) }
    requires least { AllLeast list }
    ensures { let w = manually_drop_value result.0 in Publishes list.graph (seat_view w.desk.place)
        w.desk.shown.value (drop w.behind w.log.items) }
{
    let (writer, published) = publish(rt, ManuallyDrop::into_inner(writer), list);
    (kept(writer), published)
}

impl Cache {
    /// A cache of no pair, with places for so many views.
    ///
    /// It publishes once, so that the writer knows the graph.
    pub fn new<R: Wait>(
        rt: &R,
        alloc: Global,
        graph: &Graph,
        views: u32,
    ) -> Result<Cache, AllocError>
        requires { (0 < views) × (views ≤ 64) }
        ensures { IfOk result (λ cache. cache ≡ none_known graph.now) }
    {
        let told = Told::empty(alloc, graph)?;
        let first = Told::empty(alloc, graph)?;
        let second = Told::empty(alloc, graph)?;
        let writer = ListWriter::new(alloc, first, second, views as usize)?;
        let (writer, published) = writer.publish_as::<Looks, R>(rt);
        if published.is_err() {
            drop(writer.take(rt));
            return Err(AllocError);
        }
        Ok(Cache {
            writer: kept(writer),
            told,
        })
    }

    /// A view that has learnt of all that is published.
    pub fn view(&mut self) -> Result<View, AllocError>
        ensures kept { self.new ≡ self.old }
        ensures learnt { IfOk result (λ view. view ≡ self.old) }
    {
        let told = self.told.share().ok_or(AllocError)?;
        let Ok(mut reader) = self.writer.factory().reader() else {
            return Ok(View::over(None, told));
        };
        let note = self.writer.tell::<Notes>();
        reader.learn::<Notes>(note);
        Ok(View::over(Some(reader), told))
    }

    /// Publishes the chain of a pair. A pair that is there keeps its chain.
    pub fn add<R: Wait>(
        &mut self,
        rt: &R,
        alloc: Global,
        from: &Name,
        to: &Name,
        chain: &Chain,
    ) -> Result<(), AllocError>
        requires { IsLeastPair self.old.graph (pair_by from.now to.now chain.now) }
        ensures added { MatchResult result
            (λ _. self.new ≡ added self.old (pair_by from.now to.now chain.now))
            (λ _. self.new ≡ self.old) }
        ensures kept { Extends self.new self.old }
    {
        if self.told.pair(from, to).is_some() {
            return Ok(());
        }
        let next = self.told.with(alloc, from, to, chain)?;
        next.are_least();
        let list = next.share().ok_or(AllocError)?;
        let published = replace_with(
            &mut self.writer,
            list,
            |writer, list| publish_kept(rt, writer, list),
        );
        published?;
        self.told = next;
        Ok(())
    }

    /// The pair of these names, if it is published.
    pub fn pair(&self, from: &Name, to: &Name) -> Option<&Pair>
        ensures found { option_copied result ≡ pair_of self.now from.now to.now }
        ensures least { IfSome result (λ pair. IsLeastPair self.now.graph pair.now
            × (pair.now.from ≡ from.now) × (pair.now.to ≡ to.now)) }
    {
        self.told.pair(from, to)
    }

    /// All that is published, unless the list has as many owners as can be counted.
    pub fn tell(&self) -> Option<Told>
        ensures { IfSome result (λ told. told ≡ self.now) }
    {
        self.told.share()
    }

    /// Ends the cache.
    pub fn end<R: Wait>(self, rt: &R) {
        let Cache { writer, told: _ } = self;
        drop(ManuallyDrop::into_inner(writer).take(rt));
    }
}
