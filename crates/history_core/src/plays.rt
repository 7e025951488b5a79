//! The kinds of step on a hall's table, and what each one tells.
ghost use Rattle.history_core.specs.Rule.{taken, looked, committed, released, settled, wrote, saw};
ghost use Rattle.history_core.specs.Rule.{after_split, new_pass, after_join, spent};

use crate::rule::{Held, View};
use crate::story::Story;
use atomic_table::{Join, Play, Split};
use std::marker::PhantomData;

/// The turn's word goes from 0 to 1 or 2; or it was not 0, and stays so.
pub struct Take<S> {
    story: PhantomData<S>,
}

impl<S: Story> Play<Held<S::Value, S::Entry>, View<S::Entry, S::Setting>> for Take<S> {
    ghost then = { taken S.setting S.legal S.stands S.pinned };
}

/// The length is loaded by the caller that has the turn.
pub struct Look;

impl<V, E, T> Play<Held<V, E>, View<E, T>> for Look {
    ghost then = { looked };
}

/// The length is stored, with one entry more.
pub struct Commit;

impl<V, E, T> Play<Held<V, E>, View<E, T>> for Commit {
    ghost then = { committed };
}

/// The turn's word goes to 0.
pub struct Release;

impl<V, E, T> Play<Held<V, E>, View<E, T>> for Release {
    ghost then = { released };
}

/// A side word is stored by the caller that has the turn.
pub struct Fill;

impl<V, E, T> Play<Held<V, E>, View<E, T>> for Fill {
    ghost then = { wrote };
}

/// A side word is loaded by a pass whose number has it pinned.
pub struct Read<S> {
    story: PhantomData<S>,
}

impl<S: Story> Play<Held<S::Value, S::Entry>, View<S::Entry, S::Setting>> for Read<S> {
    ghost then = { saw S.pinned };
}

/// The length is loaded by the lead after a join, so that it learns what the rule says of it.
pub struct Settle;

impl<V, E, T> Play<Held<V, E>, View<E, T>> for Settle {
    ghost then = { settled };
}

/// The lead makes a pass.
pub struct SplitPass;

impl<E, T> Split<View<E, T>> for SplitPass {
    ghost left = { after_split };

    ghost right = { new_pass };
}

/// The lead takes a pass back.
pub struct JoinPass;

impl<E, T> Join<View<E, T>> for JoinPass {
    ghost both = { after_join };

    ghost spent = { spent };
}
