//! What every ledger promises.

use crate::fault::StoreFault;
use crate::feature::Feature;
use kmipa_attrs::Filter;
use kmipa_object::{Life, Object, Rule, SecretNo, State};

/// A place in the history of a ledger. It must be spent, by `keep`, `undo` or `back`, the newest first.
pub struct Mark {
    /// How many marks stood when it was set, itself counted.
    pub depth: usize,
}

/// Objects in the order of arrival, secrets whose bytes may be unknown, what is set aside, and marks to go back to.
///
/// # Laws
/// Each call is one equation on the ledger's meaning. A refused call changes nothing, and of several faults the lowest is told.
///
/// # The moment
/// States are told at one moment, which is no part of the meaning: only `set_moment` changes it, and no mark goes back to it.
///
/// # What is set aside
/// Identifiers about which nothing is judged, also those of no object: what becomes of an object whose identifier is set aside is for who
/// calls to say. It goes back to marks as objects do; but where judging is over no `undo` takes that back.
///
/// # Memory
/// `add`, `replace`, `renew`, `new_secret`, `set_aside`, `take_in`, `mark` and `learn` of bytes that were unknown may take memory, and no
/// other call does.
pub trait Ledger {
    ghost use Rattle.std.specs.Prelude.{◌≡◌, ◌≤◌, ◌<◌, ℤ, length, slice_get, string_bytes, Some, IfSome, option_map};
    ghost use Rattle.kmipa_store.specs.Aside.{is_any_aside, is_named_aside};
    ghost use Rattle.kmipa_store.specs.Ledger.{LedgerState, held, cards_of, place_of, id_at, bytes_at, rest_set_aside, judging_ended, kept, undone, gone_back};
    ghost use Rattle.kmipa_store.specs.Calls.{Adds, Replaces, Renews, MakesSecret, Learns, SetsAside, TakesIn, SetsMark};
    ghost use Rattle.kmipa_attrs.specs.Filters.{filter_of};
    ghost use Rattle.kmipa_store.specs.Queries.{AllLack, Leaps, lasting, state_of_place, next_live_named, next_named, next_with, any_live_named};

    /// Its objects, its secrets, what is set aside, and its marks.
    ghost state: { Self → LedgerState };

    /// The moment at which states are told.
    ghost moment: { Self → ℤ };

    /// The place of the object with this identifier.
    fn find(&self, id: &str) -> Option<usize>
        ensures place { result ≡ place_of id.now (cards_of (state self.now).now.objects) }
        ensures within { IfSome result (λ place. place < length (state self.now).now.objects) };

    /// How many objects there are.
    fn len(&self) -> usize
        ensures { result ≡ length (state self.now).now.objects };

    /// The object at a place.
    fn at(&self, place: usize) -> &Object
        requires { place < length (state self.now).now.objects }
        ensures { slice_get (state self.now).now.objects place ≡ Some (held result.now) };

    /// The first place from this one on whose object has this name, a value and a type, destroyed or not.
    fn next_named(&self, value: &str, kind: u32, from: usize) -> Option<usize>
        ensures place { result ≡ next_named value.now kind from (state self.now).now.objects }
        ensures within { IfSome result (λ place. place < length (state self.now).now.objects) };

    /// The first place from this one on whose object has this name and no Destroy Date.
    fn next_live_named(&self, value: &str, kind: u32, from: usize) -> Option<usize>
        ensures place { result ≡ next_live_named value.now kind from (state self.now).now.objects }
        ensures within { IfSome result (λ place. place < length (state self.now).now.objects) };

    /// Whether an object without a Destroy Date has this name.
    fn any_live_named(&self, value: &str, kind: u32) -> bool
        ensures { result ≡ any_live_named value.now kind (state self.now).now.objects };

    /// The first place from this one on whose object has this feature at the moment.
    fn next_with(&self, feature: Feature, from: usize) -> Option<usize>
        ensures place { result ≡ next_with feature (moment self.now) from (state self.now).now.objects }
        ensures within { IfSome result (λ place. place < length (state self.now).now.objects) };

    /// From now on `next_with` is quick for features like this one, where there are many objects and memory for it. Nothing else changes.
    fn prepare(&mut self, feature: Feature)
        ensures meaning { state self.new ≡ state self.old }
        ensures moment { moment self.new ≡ moment self.old };

    /// A place from this one on: each object from this one to there lacks something that lasts of what a filter asks for, a name, the type,
    /// the algorithm or the length. It is far on where `remember` was told so.
    fn ahead(&self, filter: &Filter, from: usize) -> usize
        ensures { Leaps (lasting (filter_of filter.now)) (state self.now).now.objects from result };

    /// From where on `remember` is to be told of a filter.
    fn end_of(&self, filter: &Filter) -> usize
        ensures { result ≤ length (state self.now).now.objects };

    /// Each object from one place to another lacks something that lasts of what a filter asks for; where the places are one, the object there
    /// may have all of it. From now on `ahead` is quick there, where there is memory for it. Nothing else changes.
    fn remember(&mut self, filter: &Filter, from: usize, to: usize)
        requires { AllLack (lasting (filter_of filter.now)) (state self.old).now.objects from to }
        ensures meaning { state self.new ≡ state self.old }
        ensures moment { moment self.new ≡ moment self.old };

    /// The moment at which states are told, in seconds since 1970-01-01T00:00:00Z; 0 until it is set.
    fn moment(&self) -> i64
        ensures { result ≡ moment self.now };

    /// From now on states are told at this moment.
    fn set_moment(&mut self, t: i64)
        ensures meaning { state self.new ≡ state self.old }
        ensures moment { moment self.new ≡ t };

    /// The state of the object at a place: what its dates say at the moment.
    fn state(&self, place: usize) -> State
        requires { place < length (state self.now).now.objects }
        ensures { state_of_place (state self.now).now.objects place (moment self.now) ≡ Some result };

    /// Adds an object after the others, and answers its place. Refused with IdentifierTaken or for memory; the object is then let go.
    fn add(&mut self, object: Object) -> Result<usize, StoreFault>
        ensures meaning { Adds (state self.old) (held object) result (state self.new) }
        ensures moment { moment self.new ≡ moment self.old };

    /// Gives the object at a place other dates and other material. Refused for memory alone.
    fn replace(&mut self, place: usize, life: Life) -> Result<(), StoreFault>
        requires { place < length (state self.old).now.objects }
        ensures meaning { Replaces (state self.old) place life result (state self.new) }
        ensures moment { moment self.new ≡ moment self.old };

    /// The object at a place is another one of the same identifier from now on. Refused for memory alone; the other one is then let go.
    fn renew(&mut self, place: usize, object: Object) -> Result<(), StoreFault>
        requires there { place < length (state self.old).now.objects }
        requires same { id_at (state self.old).now.objects place ≡ Some (string_bytes object.id) }
        ensures meaning { Renews (state self.old) place (held object) result (state self.new) }
        ensures moment { moment self.new ≡ moment self.old };

    /// A new secret of unknown bytes under this rule. Refused with LengthImpossible or for memory.
    fn new_secret(&mut self, rule: Rule) -> Result<SecretNo, StoreFault>
        ensures meaning { MakesSecret (state self.old) rule result (state self.new) }
        ensures moment { moment self.new ≡ moment self.old };

    /// The bytes of a secret, where they are known.
    fn secret(&self, secret: SecretNo) -> Option<&[u8]>
        requires { secret.number < length (state self.now).now.secrets }
        ensures { bytes_at (state self.now).now.secrets secret.number ≡ Some (option_map (λ bytes. bytes.now) result) };

    /// From now on a secret has these bytes. Refused with BytesDiffer, LengthImpossible or, where they were unknown, for memory.
    fn learn(&mut self, secret: SecretNo, bytes: &[u8]) -> Result<(), StoreFault>
        requires { secret.number < length (state self.old).now.secrets }
        ensures meaning { Learns (state self.old) secret.number bytes.now result (state self.new) }
        ensures moment { moment self.new ≡ moment self.old };

    /// Whether this identifier is set aside by its name.
    fn is_aside(&self, id: &str) -> bool
        ensures { result ≡ is_named_aside (state self.now).now.aside id.now };

    /// Whether every identifier that no object has is set aside.
    fn is_rest_aside(&self) -> bool
        ensures { result ≡ (state self.now).now.aside.rest };

    /// Whether judging is over: all is set aside, for good.
    fn is_over(&self) -> bool
        ensures { result ≡ (state self.now).now.aside.over };

    /// Whether something is set aside: some identifier, the rest, or all.
    fn is_any_aside(&self) -> bool
        ensures { result ≡ is_any_aside (state self.now).now.aside };

    /// From now on this identifier is set aside. Refused for memory alone.
    fn set_aside(&mut self, id: &str) -> Result<(), StoreFault>
        ensures meaning { SetsAside (state self.old) id.now result (state self.new) }
        ensures moment { moment self.new ≡ moment self.old };

    /// From now on this identifier is no more set aside by its name. Refused for memory alone.
    fn take_in(&mut self, id: &str) -> Result<(), StoreFault>
        ensures meaning { TakesIn (state self.old) id.now result (state self.new) }
        ensures moment { moment self.new ≡ moment self.old };

    /// From now on every identifier that no object has is set aside.
    fn set_rest_aside(&mut self)
        ensures meaning { state self.new ≡ rest_set_aside (state self.old) }
        ensures moment { moment self.new ≡ moment self.old };

    /// From now on judging is over.
    fn end_judging(&mut self)
        ensures meaning { state self.new ≡ judging_ended (state self.old) }
        ensures moment { moment self.new ≡ moment self.old };

    /// A new mark at this moment. Refused for memory alone.
    fn mark(&mut self) -> Result<Mark, StoreFault>
        ensures meaning { SetsMark (state self.old) result (state self.new) }
        ensures moment { moment self.new ≡ moment self.old };

    /// Spends the newest mark: nothing goes back.
    fn keep(&mut self, mark: Mark)
        requires { mark.depth ≡ length (state self.old).marks }
        ensures meaning { state self.new ≡ kept (state self.old) }
        ensures moment { moment self.new ≡ moment self.old };

    /// Spends the newest mark: objects and what is set aside go back to it; secrets, what was learned, and that judging is over stay.
    fn undo(&mut self, mark: Mark)
        requires { mark.depth ≡ length (state self.old).marks }
        ensures meaning { state self.new ≡ undone (state self.old) }
        ensures moment { moment self.new ≡ moment self.old };

    /// Spends the newest mark: all goes back to it.
    fn back(&mut self, mark: Mark)
        requires { mark.depth ≡ length (state self.old).marks }
        ensures meaning { state self.new ≡ gone_back (state self.old) }
        ensures moment { moment self.new ≡ moment self.old };
}
