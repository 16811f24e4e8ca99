//! The calls of a ledger, through the trait, on each ledger.

ghost use Rattle.std.specs.Prelude.{◌≡◌, ◌<◌, length};

use super::check;
use kmipa_attrs::{AttrSet, Name, ObjectType};
use kmipa_object::{Life, Material, Object, Rule, SecretNo, State};
use kmipa_store::{Copies, Journal, Ledger, StoreFault};
use std::alloc::Global;
use std::process::Abort;

const K: [u8; 16] = [0, 1, 2, 3, 4, 5, 6, 7, 8, 9, 10, 11, 12, 13, 14, 15];

const J: [u8; 16] = [0, 1, 2, 3, 4, 5, 6, 7, 8, 9, 10, 11, 12, 13, 14, 31];

/// Too few bytes of a secret of 128 bits.
const SHORT: [u8; 8] = [0, 1, 2, 3, 4, 5, 6, 7];

const T: i64 = 1_700_000_000;

/// The two seconds ahead of it, and the fourth and the fifth behind it.
const EARLIER: i64 = T - 2;

const AHEAD: i64 = T - 1;

const LAST: i64 = T + 4;

const END: i64 = T + 5;

/// The life of a Pre-Active object. Where its bytes are is no matter of these tests.
const UNBORN: Life = Life {
    initial: None,
    activation: None,
    deactivation: None,
    destroy: None,
    compromise: None,
    material: Material::Gone,
};

/// The life of an object that is active from the moment on and for five seconds, and the like of one that is destroyed then.
const ACTIVE: Life = Life {
    activation: Some(T),
    deactivation: Some(END),
    ..UNBORN
};

const DESTROYED: Life = Life {
    destroy: Some(T),
    ..UNBORN
};

/// The first place of the name `n` of a type, from a place on, where the first object and the third have it with type 1.
const TWO_NAMED: [(u32, usize, Option<usize>); 4] = [
    (1, 0, Some(0)),
    (1, 1, Some(2)),
    (1, 3, None),
    (2, 0, None),
];

/// The places of five identifiers, and of one that no object has.
const ALL_FIVE: [(&str, Option<usize>); 6] = [
    ("a-00000001", Some(0)),
    ("b-00000001", Some(1)),
    ("c-00000001", Some(2)),
    ("d-00000002", Some(3)),
    ("e-00000002", Some(4)),
    ("f-00000001", None),
];

/// The same where the first two are left.
const FIRST_TWO: [(&str, Option<usize>); 5] = [
    ("a-00000001", Some(0)),
    ("b-00000001", Some(1)),
    ("c-00000001", None),
    ("d-00000002", None),
    ("e-00000002", None),
];

/// The same where the fifth came anew.
const ONE_ANEW: [(&str, Option<usize>); 2] = [("e-00000002", Some(2)), ("d-00000002", None)];

/// A Pre-Active object with one name.
fn object_of(rt: &impl Abort, alloc: Global, id: &str, name: &str) -> Object {
    let mut given = AttrSet::new(alloc);
    let value = String::from_str(alloc, name).expect(rt, "memory");
    given
        .names
        .push(Name { value, kind: 1 })
        .expect(rt, "memory");
    Object {
        id: String::from_str(alloc, id).expect(rt, "memory"),
        kind: ObjectType::SymmetricKey,
        given,
        life: UNBORN,
    }
}

/// Adds a Pre-Active object with an identifier and a name, which comes to this place, or is refused.
fn put<L: Ledger>(
    rt: &impl Abort,
    alloc: Global,
    ledger: &mut L,
    names: (&str, &str),
    place: Option<usize>,
)
    ensures secrets { length (L.state ledger.new).now.secrets ≡ length (L.state ledger.old).now.secrets }
    ensures marks { (L.state ledger.new).marks ≡ (L.state ledger.old).marks }
{
    let (id, name) = names;
    let added = ledger.add(object_of(rt, alloc, id, name)).ok();
    check(rt, added == place, id);
}

/// A new secret under a rule; its number tells how many there were.
fn make<L: Ledger>(rt: &impl Abort, ledger: &mut L, rule: Rule) -> SecretNo
    ensures there { result.number < length (L.state ledger.new).now.secrets }
    ensures marks { (L.state ledger.new).marks ≡ (L.state ledger.old).marks }
{
    ledger.new_secret(rule).expect(rt, "memory")
}

/// One more secret, which has this number, above that of the first.
fn make_more<L: Ledger>(rt: &impl Abort, ledger: &mut L, first: SecretNo, number: usize)
    ensures there { first.number < length (L.state ledger.new).now.secrets }
    ensures marks { (L.state ledger.new).marks ≡ (L.state ledger.old).marks }
{
    let made = make(rt, ledger, Rule::Any);
    check(rt, made.number == number, "another number");
    check(rt, first.number < made.number, "no higher number");
}

/// Learns bytes, or is refused so.
fn teach<L: Ledger>(
    rt: &impl Abort,
    ledger: &mut L,
    secret: SecretNo,
    bytes: &[u8],
    said: Result<(), StoreFault>,
)
    requires { secret.number < length (L.state ledger.old).now.secrets }
    ensures secrets { length (L.state ledger.new).now.secrets ≡ length (L.state ledger.old).now.secrets }
    ensures marks { (L.state ledger.new).marks ≡ (L.state ledger.old).marks }
{
    check(
        rt,
        ledger.learn(secret, bytes) == said,
        "another answer to bytes",
    );
}

/// Checks that a secret has these bytes, or none that are known.
fn check_bytes<L: Ledger>(rt: &impl Abort, ledger: &L, secret: SecretNo, bytes: Option<&[u8]>)
    requires { secret.number < length (L.state ledger.now).now.secrets }
{
    check(rt, ledger.secret(secret) == bytes, "other bytes");
}

/// Checks that each of these identifiers is found at this place.
fn check_found<L: Ledger>(rt: &impl Abort, ledger: &L, places: &[(&str, Option<usize>)]) {
    for (id, place) in places {
        check(rt, ledger.find(id) == *place, id);
    }
}

/// What is learned stays when objects are undone, and goes when the ledger goes back.
fn bytes_in_turn<L: Ledger + Drop>(rt: &impl Abort, alloc: Global, mut ledger: L) {
    let first = make(rt, &mut ledger, Rule::Bits(128));
    check(rt, first.number == 0, "another first number");
    put(rt, alloc, &mut ledger, ("a", "n"), Some(0));
    let older = ledger.mark().expect(rt, "memory");
    let newer = ledger.mark().expect(rt, "memory");
    make_more(rt, &mut ledger, first, 1);
    check_bytes(rt, &ledger, first, None);
    teach(
        rt,
        &mut ledger,
        first,
        &SHORT,
        Err(StoreFault::LengthImpossible),
    );
    teach(rt, &mut ledger, first, &K, Ok(()));
    put(rt, alloc, &mut ledger, ("b", "n"), Some(1));
    ledger.undo(newer);
    make_more(rt, &mut ledger, first, 2);
    check_bytes(rt, &ledger, first, Some(&K));
    teach(rt, &mut ledger, first, &J, Err(StoreFault::BytesDiffer));
    check_found(rt, &ledger, &[("b", None)]);
    ledger.back(older);
    make_more(rt, &mut ledger, first, 1);
    check_bytes(rt, &ledger, first, None);
    teach(rt, &mut ledger, first, &J, Ok(()));
    check_bytes(rt, &ledger, first, Some(&J));
    check_found(rt, &ledger, &[("a", Some(0))]);
    check(rt, ledger.len() == 1, "other objects");
}

/// The first object leads this life from now on.
fn live<L: Ledger>(rt: &impl Abort, ledger: &mut L, life: Life)
    ensures marks { (L.state ledger.new).marks ≡ (L.state ledger.old).marks }
{
    check(rt, 0 < ledger.len(), "no object");
    check(rt, ledger.replace(0, life).is_ok(), "it is not replaced");
}

/// Checks that the first object, the only one, is in this state at a moment.
fn check_state<L: Ledger>(rt: &impl Abort, ledger: &mut L, t: i64, state: State)
    ensures { L.state ledger.new ≡ L.state ledger.old }
{
    ledger.set_moment(t);
    check(rt, ledger.len() == 1, "other objects");
    check(rt, ledger.state(0) == state, "another state");
}

/// An object's dates come and go with the moment, which no mark goes back to.
fn moments_in_turn<L: Ledger + Drop>(rt: &impl Abort, alloc: Global, mut ledger: L) {
    check(rt, ledger.moment() == 0, "another first moment");
    put(rt, alloc, &mut ledger, ("a", "n"), Some(0));
    let mark = ledger.mark().expect(rt, "memory");
    live(rt, &mut ledger, ACTIVE);
    check_state(rt, &mut ledger, END, State::Deactivated);
    check_state(rt, &mut ledger, LAST, State::Active);
    check_state(rt, &mut ledger, AHEAD, State::PreActive);
    check_state(rt, &mut ledger, T, State::Active);
    ledger.undo(mark);
    check(rt, ledger.moment() == T, "another moment");
    check_state(rt, &mut ledger, T, State::PreActive);
}

/// What happens at the present moment is told below it and above it, and no more once it is taken back.
fn presents_in_turn<L: Ledger + Drop>(rt: &impl Abort, alloc: Global, mut ledger: L) {
    ledger.set_moment(T);
    put(rt, alloc, &mut ledger, ("a", "n"), Some(0));
    let mark = ledger.mark().expect(rt, "memory");
    live(rt, &mut ledger, ACTIVE);
    check_state(rt, &mut ledger, AHEAD, State::PreActive);
    check_state(rt, &mut ledger, END, State::Deactivated);
    check_state(rt, &mut ledger, EARLIER, State::PreActive);
    check_state(rt, &mut ledger, T, State::Active);
    ledger.undo(mark);
    check_state(rt, &mut ledger, T, State::PreActive);
    check_state(rt, &mut ledger, AHEAD, State::PreActive);
    check_state(rt, &mut ledger, END, State::PreActive);
}

/// Checks that the first object with the name `n` of a type, from a place on, is at this place.
fn check_named<L: Ledger>(rt: &impl Abort, ledger: &L, places: &[(u32, usize, Option<usize>)]) {
    for (kind, from, place) in places {
        check(
            rt,
            ledger.next_named("n", *kind, *from) == *place,
            "another place of a name",
        );
    }
}

/// Checks whether any live object has the name `n`, and is found by it.
fn check_live<L: Ledger>(rt: &impl Abort, ledger: &L, any: bool) {
    check(rt, ledger.any_live_named("n", 1) == any, "a name");
    let next = ledger.next_live_named("n", 1, 0);
    check(rt, next.is_some() == any, "a place of a live name");
}

/// Names are found, destroyed or not, until they are taken back.
fn names_in_turn<L: Ledger + Drop>(rt: &impl Abort, alloc: Global, mut ledger: L) {
    put(rt, alloc, &mut ledger, ("a", "n"), Some(0));
    put(rt, alloc, &mut ledger, ("b", "m"), Some(1));
    let mark = ledger.mark().expect(rt, "memory");
    put(rt, alloc, &mut ledger, ("c", "n"), Some(2));
    check_named(rt, &ledger, &TWO_NAMED);
    ledger.undo(mark);
    live(rt, &mut ledger, DESTROYED);
    let mark = ledger.mark().expect(rt, "memory");
    check_live(rt, &ledger, false);
    live(rt, &mut ledger, UNBORN);
    check_live(rt, &ledger, true);
    ledger.keep(mark);
    check_named(rt, &ledger, &[(1, 1, None)]);
    check_live(rt, &ledger, true);
}

/// Identifiers that end alike are told apart, before and after some are taken back.
fn identifiers_in_turn<L: Ledger + Drop>(rt: &impl Abort, alloc: Global, mut ledger: L) {
    put(rt, alloc, &mut ledger, ("a-00000001", "n"), Some(0));
    put(rt, alloc, &mut ledger, ("b-00000001", "n"), Some(1));
    let mark = ledger.mark().expect(rt, "memory");
    put(rt, alloc, &mut ledger, ("c-00000001", "n"), Some(2));
    put(rt, alloc, &mut ledger, ("d-00000002", "n"), Some(3));
    put(rt, alloc, &mut ledger, ("e-00000002", "n"), Some(4));
    put(rt, alloc, &mut ledger, ("c-00000001", "n"), None);
    check_found(rt, &ledger, &ALL_FIVE);
    ledger.undo(mark);
    check_found(rt, &ledger, &FIRST_TWO);
    put(rt, alloc, &mut ledger, ("e-00000002", "n"), Some(2));
    check_found(rt, &ledger, &ONE_ANEW);
}

#[test]
fn journal_keeps_the_laws(rt: HostRuntime) {
    let alloc = rt.alloc();
    bytes_in_turn(&rt, alloc, Journal::new(alloc));
    moments_in_turn(&rt, alloc, Journal::new(alloc));
    presents_in_turn(&rt, alloc, Journal::new(alloc));
    names_in_turn(&rt, alloc, Journal::new(alloc));
    identifiers_in_turn(&rt, alloc, Journal::new(alloc));
}

#[test]
fn copies_keep_the_laws(rt: HostRuntime) {
    let alloc = rt.alloc();
    bytes_in_turn(&rt, alloc, Copies::new(alloc));
    moments_in_turn(&rt, alloc, Copies::new(alloc));
    presents_in_turn(&rt, alloc, Copies::new(alloc));
    names_in_turn(&rt, alloc, Copies::new(alloc));
    identifiers_in_turn(&rt, alloc, Copies::new(alloc));
}
