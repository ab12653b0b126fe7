//! From what is an instance evaluated?
//!
//! From its rule, if there is one at the production where it would be. What is done then is in `run`.

ghost use Rattle.std.specs.Prelude.{◌≡◌, ◌<◌, List, length, IfSome, IfNone};
ghost use Rattle.wb_flow_theory.specs.Rules.{target_vertex, HasRule};
ghost use Rattle.wb_flow_theory.specs.Vertices.{inherited, tree_of};
ghost use Rattle.wb_eval.specs.Inner.Starts.{IsAtWork, HasProduction, IsProductionAt, IsStart, made_by};
ghost use Rattle.wb_eval_memo.specs.Sites.{step_of};
ghost use Rattle.wb_operations.specs.Operations.{OperationSignature, Operations};
ghost use Rattle.wb_eval_rules.specs.Codes.{AreCoded, IsCoded, HasCode};
ghost use Rattle.wb_eval_rules.specs.Indexes.{AreIndexes, IsIndexOf};
ghost use Rattle.wb_eval.specs.declared.machine.Key.TheVariants.{Synthesized, Inherited, Tree};
ghost use Rattle.wb_values.specs.declared.value.Value.{Value};

use crate::context::Definitions;
use crate::machine::{Key, Machine, tree_at};
use wb_eval_memo::Step;
use wb_eval_rules::{Op, Rules, equation_for, forward_code, local_code};
use wb_syntax_resolved::{Place, Target};
use wb_values::TreeStore;

// What an instance is evaluated from.
#[derive(Clone, Copy)]
pub(crate) enum Start<'a> {
    // The expression of this code, at a site.
    Expression { site: usize, code: &'a [Op] },
    // One other instance, whose value is its value.
    Read(Key),
    // This attribute of the forwarded tree.
    Forward { site: usize, attribute: usize },
    // A tree that isn't known.
    Needs(Key),
}

// From what the instance of a key is evaluated.
#[inline(always)]
pub(crate) fn start_of<'a>(
    definitions: &Definitions<'a>,
    machine: &Machine,
    store: &TreeStore,
    key: Key,
) -> Start<'a>
    requires works { (operations : Operations) × (under : List Value) × IsAtWork definitions.now.attributes.now operations store.now under machine.now key }
    requires rules { AreIndexes definitions.now.attributes.now.productions definitions.now.rules.now.rows.items }
    requires coded { (signatures : List OperationSignature) × AreCoded signatures definitions.now.attributes.now.productions definitions.now.rules.now.codes.items }
    ensures { (operations : Operations) (under : List Value) → IsAtWork definitions.now.attributes.now operations store.now under machine.now key → AreCoded operations.signatures definitions.now.attributes.now.productions definitions.now.rules.now.codes.items → IsStart definitions.now.attributes.now operations store.now under machine.now result }
{
    match key {
        Key::Synthesized { site, attribute } => {
            start_of_synthesized(definitions, machine, store, site, attribute)
        }
        Key::Inherited { site, attribute } => {
            start_of_inherited(definitions, machine, store, site, attribute)
        }
        Key::Tree { site } => start_of_tree(definitions, machine, store, site),
    }
}

// From what the tree of a local or forward is evaluated.
#[inline(never)]
fn start_of_tree<'a>(
    definitions: &Definitions<'a>,
    machine: &Machine,
    store: &TreeStore,
    site: usize,
) -> Start<'a>
    requires works { (operations : Operations) × (under : List Value) × IsAtWork definitions.now.attributes.now operations store.now under machine.now (Tree site) }
    requires rules { AreIndexes definitions.now.attributes.now.productions definitions.now.rules.now.rows.items }
    requires coded { (signatures : List OperationSignature) × AreCoded signatures definitions.now.attributes.now.productions definitions.now.rules.now.codes.items }
    ensures { (operations : Operations) (under : List Value) → IsAtWork definitions.now.attributes.now operations store.now under machine.now (Tree site) → AreCoded operations.signatures definitions.now.attributes.now.productions definitions.now.rules.now.codes.items → IsStart definitions.now.attributes.now operations store.now under machine.now result }
{
    let origin = machine.memo.sites.origins[site - 1];
    let parent = origin.parent as usize;
    let rules = rules_at(definitions, machine, store, parent);
    match tree_code(&rules, origin.step) {
        Some(code) => Start::Expression { site: parent, code },
        None => unreachable!(),
    }
}

// The code of a local or forward.
fn tree_code<'a>(rules: &Rules<'a>, step: Step) -> Option<&'a [Op]>
    requires { (signatures : List OperationSignature) × IsCoded signatures rules.now.production.now rules.now.codes.now }
    ensures some { (signatures : List OperationSignature) → IsCoded signatures rules.now.production.now rules.now.codes.now
        → IfSome result (λ code. made_by step (λ k. HasCode signatures rules.now.production.now (tree_of k) code.now)) }
    ensures none { IfNone result (made_by step (λ k. ¬ HasRule rules.now.production.now (tree_of k))) }
{
    match step {
        Step::Local(x) => local_code(rules, x as usize),
        Step::Forward => forward_code(rules),
        Step::Child(_) => None,
    }
}

// From what an inherited attribute is evaluated.
#[inline(always)]
fn start_of_inherited<'a>(
    definitions: &Definitions<'a>,
    machine: &Machine,
    store: &TreeStore,
    site: usize,
    attribute: usize,
) -> Start<'a>
    requires works { (operations : Operations) × (under : List Value) × IsAtWork definitions.now.attributes.now operations store.now under machine.now (Inherited site attribute) }
    requires rules { AreIndexes definitions.now.attributes.now.productions definitions.now.rules.now.rows.items }
    requires coded { (signatures : List OperationSignature) × AreCoded signatures definitions.now.attributes.now.productions definitions.now.rules.now.codes.items }
    ensures { (operations : Operations) (under : List Value) → IsAtWork definitions.now.attributes.now operations store.now under machine.now (Inherited site attribute) → AreCoded operations.signatures definitions.now.attributes.now.productions definitions.now.rules.now.codes.items → IsStart definitions.now.attributes.now operations store.now under machine.now result }
{
    let origin = machine.memo.sites.origins[site - 1];
    let parent = origin.parent as usize;
    let rules = rules_at(definitions, machine, store, parent);
    match equation_for(&rules, target_below(origin.step, attribute)) {
        Some(code) => Start::Expression { site: parent, code },
        None => Start::Read(Key::Inherited {
            site: parent,
            attribute,
        }),
    }
}

// From what a synthesized attribute is evaluated.
#[inline(always)]
fn start_of_synthesized<'a>(
    definitions: &Definitions<'a>,
    machine: &Machine,
    store: &TreeStore,
    site: usize,
    attribute: usize,
) -> Start<'a>
    requires works { (operations : Operations) × (under : List Value) × IsAtWork definitions.now.attributes.now operations store.now under machine.now (Synthesized site attribute) }
    requires rules { AreIndexes definitions.now.attributes.now.productions definitions.now.rules.now.rows.items }
    requires coded { (signatures : List OperationSignature) × AreCoded signatures definitions.now.attributes.now.productions definitions.now.rules.now.codes.items }
    ensures { (operations : Operations) (under : List Value) → IsAtWork definitions.now.attributes.now operations store.now under machine.now (Synthesized site attribute) → AreCoded operations.signatures definitions.now.attributes.now.productions definitions.now.rules.now.codes.items → IsStart definitions.now.attributes.now operations store.now under machine.now result }
{
    if machine.memo.trees[site].is_none() {
        return Start::Needs(Key::Tree { site });
    }
    let rules = rules_at(definitions, machine, store, site);
    match equation_for(&rules, Target::Top(attribute)) {
        Some(code) => Start::Expression { site, code },
        None => Start::Forward { site, attribute },
    }
}

// The rules of the production at a site whose tree is known.
#[inline(always)]
fn rules_at<'a>(
    definitions: &Definitions<'a>,
    machine: &Machine,
    store: &TreeStore,
    site: usize,
) -> Rules<'a>
    requires production { HasProduction definitions.now.attributes.now store.now machine.now site }
    requires rules { AreIndexes definitions.now.attributes.now.productions definitions.now.rules.now.rows.items }
    requires coded { (signatures : List OperationSignature) × AreCoded signatures definitions.now.attributes.now.productions definitions.now.rules.now.codes.items }
    ensures production { IsProductionAt definitions.now.attributes.now store.now machine.now site result.production.now }
    ensures equations { IsIndexOf result.production.now.equations (length result.production.now.equations) result.equations.now }
    ensures codes { (signatures : List OperationSignature) → AreCoded signatures definitions.now.attributes.now.productions definitions.now.rules.now.codes.items → IsCoded signatures result.production.now result.codes.now }
{
    let tree = tree_at(&machine.memo, site);
    let number = store.production(tree);
    let productions = definitions.attributes.productions.as_slice();
    Rules {
        production: &productions[number],
        equations: &definitions.rules.rows[number],
        codes: &definitions.rules.codes[number],
    }
}

// What an equation is for, one step down.
#[inline(always)]
fn target_below(step: Step, attribute: usize) -> Target
    ensures { target_vertex result ≡ inherited (step_of step) attribute }
{
    match step {
        Step::Child(k) => Target::Place {
            place: Place::Child(k as usize),
            attribute,
        },
        Step::Local(x) => Target::Place {
            place: Place::Local(x as usize),
            attribute,
        },
        Step::Forward => Target::Forward(attribute),
    }
}
