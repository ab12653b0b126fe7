//! Where does a node of a term not fit the signature of its production?
//!
//! Asked once for each node, when it ends. Which of several faults is reported is found by `smallest`.

ghost use Rattle.std.specs.Prelude.{◌≡◌, ◌↔◌, ◌<◌, ◌≤◌, ℕ, List, All, length, map, IsTrue, slice_get, Some};
ghost use Rattle.std.specs.List.{AllZip};
ghost use Rattle.wb_values.specs.Signature.{Signature};
ghost use Rattle.wb_values.specs.ValuesIn.{value_in, IsIn};
ghost use Rattle.wb_terms.specs.Term.{Argument, place_of};
ghost use Rattle.wb_terms.specs.Inner.Least.{FindsLeast};
ghost use Rattle.wb_terms.specs.TreeOf.{IsOfKind, IsWrong, IsWrongChild};
ghost use Rattle.wb_terms.specs.Inner.Built.{IsNumberOf, IsStored, FitsIfKnown};
ghost use Rattle.wb_terms.specs.Inner.KindsFit.{IsOfLeft, KindsFit};

use crate::smallest::smallest_with;
use wb_base::Kind;
use wb_values::{Signatures, TreeStore, Value};

// Whether the production is there, and is one of the nonterminal.
fn is_of_left(signatures: &Signatures, production: usize, nonterminal: usize) -> bool
    ensures { IsTrue result ↔ IsOfLeft signatures.now production nonterminal }
{
    if production >= signatures.len() {
        return false;
    }
    signatures.left(production) == nonterminal
}

// Whether a stored argument is of the kind.
fn is_of_kind(signatures: &Signatures, store: &TreeStore, value: &Value, kind: Kind) -> bool
    requires { IsIn (length store.now) value.now }
    ensures { (argument : Argument) → IsStored signatures.now store.now argument value.now →
        (IsTrue result ↔ IsOfKind signatures.now argument kind) }
{
    match value {
        Value::Int(_) => matches!(kind, Kind::Int),
        Value::Bool(_) => matches!(kind, Kind::Bool),
        Value::Text(_) => matches!(kind, Kind::Text),
        Value::Tree(tree) => match kind {
            Kind::Int => false,
            Kind::Bool => false,
            Kind::Text => false,
            Kind::Tree(nonterminal) => is_of_left(signatures, store.production(*tree), nonterminal),
        },
    }
}

// The least place of a child that isn't of the kind at its place.
fn wrong_child(
    signatures: &Signatures,
    store: &TreeStore,
    values: &[Value],
    places: &[usize],
    kinds: &[Kind],
) -> Option<usize>
    requires within { All (IsIn (length store.now)) values.now }
    requires places { length places.now ≡ length values.now }
    ensures { (arguments : List Argument) → AllZip (IsStored signatures.now store.now) arguments values.now →
        map place_of arguments ≡ places.now →
        FindsLeast (IsWrongChild signatures.now arguments kinds.now) (KindsFit signatures.now arguments kinds.now) result }
{
    let mut least = None;
    for index in 0..values.len().min(kinds.len()) {
        let fits = is_of_kind(signatures, store, &values[index], kinds[index]);
        least = smallest_with(least, !fits, places[index]);
    }
    least
}

// The least place of a fault of a node: its own, where it has a wrong number of children, or that of a child of a wrong kind.
// A node whose production isn't there has none.
pub(crate) fn wrong_in(
    signatures: &Signatures,
    store: &TreeStore,
    production: usize,
    at: usize,
    values: &[Value],
    places: &[usize],
) -> Option<usize>
    requires within { All (IsIn (length store.now)) values.now }
    requires places { length places.now ≡ length values.now }
    ensures { (name : List ℕ) (arguments : List Argument) → IsNumberOf signatures.now name production →
        AllZip (IsStored signatures.now store.now) arguments values.now → map place_of arguments ≡ places.now →
        FindsLeast (λ place. IsWrong signatures.now place name at arguments) (FitsIfKnown signatures.now name at arguments) result }
{
    if production >= signatures.len() {
        return None;
    }
    let kinds = signatures.children(production);
    let least = wrong_child(signatures, store, values, places, kinds);
    smallest_with(least, values.len() != kinds.len(), at)
}
