//! Where the live objects stand that have a name.

ghost use Rattle.std.specs.Prelude.{◌≡◌, ◌<◌, length, map, IfSome};
ghost use Rattle.kmipa_attrs.specs.Sets.{name_of};
ghost use Rattle.kmipa_store.specs.Queries.{next_live_named};

use crate::names::Names;
use crate::objects::Objects;
use kmipa_attrs::Name;
use std::alloc::Global;

/// The names of the objects without a Destroy Date, so that those of destroyed ones cost nothing. Where one of them found no memory, all
/// objects are looked at from then on.
#[derive(Drop)]
pub struct LiveNames {
    names: Names,
    is_whole: bool,
}

impl LiveNames {
    ghost use Rattle.std.specs.Prelude.{[]};
    ghost use Rattle.kmipa_store.specs.LiveNames.{ForgetsLive, KnowsLive, NotesLive};

    /// No names.
    pub fn new(alloc: Global) -> LiveNames
        ensures { KnowsLive result [] }
    {
        LiveNames {
            names: Names::new(alloc),
            is_whole: true,
        }
    }

    /// The first place from this one on whose object has this name and no Destroy Date.
    pub fn next(&self, objects: &Objects, value: &str, kind: u32, from: usize) -> Option<usize>
        requires { KnowsLive self.now objects.now }
        ensures place { result ≡ next_live_named value.now kind from objects.now }
        ensures within { IfSome result (λ place. place < length objects.now) }
    {
        if self.is_whole {
            self.names.next_live(objects, value, kind, from)
        } else {
            objects.next_live_named(value, kind, from)
        }
    }

    /// Lists the names of the object at a place, where there is memory.
    pub fn note(&mut self, place: usize, names: &[Name])
        ensures { NotesLive self.old place (map name_of names.now) self.new }
    {
        if let Err(_) = self.names.note(place, names) {
            self.is_whole = false;
        }
    }

    /// Lists the names of the object at a place no longer.
    pub fn forget(&mut self, place: usize, names: &[Name])
        ensures { ForgetsLive self.old place self.new }
    {
        self.names.forget(place, names);
    }
}
