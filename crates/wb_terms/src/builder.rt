//! How are trees built from what is met in a term, and where does the term not fit?
//!
//! Every node is built as soon as it ends, also where a fault was met: the caller takes the trees back.

ghost use Rattle.std.specs.Prelude.{◌≡◌, ◌↔◌, ◌<◌, ◌≤◌, ℕ, List, [], ◌∷◌, ◌++◌, All, drop, length, map, IfErr, IfOk, OnOk};
ghost use Rattle.std.specs.List.{AllZip};
ghost use Rattle.wb_values.specs.Signature.{Signature};
ghost use Rattle.wb_values.specs.Tree.{Tree};
ghost use Rattle.wb_values.specs.ValuesIn.{tree_in, IsIn};
ghost use Rattle.wb_values.specs.declared.value.Value.TheVariants.{Int};
ghost use Rattle.wb_terms.specs.declared.event.Event.{Event};
ghost use Rattle.wb_terms.specs.declared.event.Event.TheVariants.{Begin, End};
ghost use Rattle.wb_terms.specs.Term.{Term, Argument, place_of};
ghost use Rattle.wb_terms.specs.Inner.Least.{FindsLeast};
ghost use Rattle.wb_terms.specs.TreeOf.{IsTreeOf, IsUnknown};
ghost use Rattle.wb_terms.specs.Inner.Events.{term_onto};
ghost use Rattle.wb_terms.specs.Inner.Zipper.{Zipper, inside, zipper};
ghost use Rattle.wb_terms.specs.Inner.Built.{IsNumberOf, IsKnown, IsStored, FindsUnknown, FindsWrong};
ghost use Rattle.wb_terms.specs.Inner.Holding.{AddsValue, Holds, HoldsSome, HoldsTerm, IsFaultOf};

use crate::event::Event;
use crate::kinds::wrong_in;
use crate::refusal::TermRefusal;
use crate::smallest::smaller_of;
use std::alloc::{AllocError, Global};
use wb_base::{Bytes, push};
use wb_values::{Signatures, TreeId, TreeStore, Value};

// A node that was begun.
#[derive(Clone, Copy)]
pub(crate) struct Frame {
    // Its production, or the count of the signatures where its name has none.
    pub production: usize,
    // The place of its name.
    pub at: usize,
    // How many values there were before its children.
    pub start: usize,
}

// The least places of what doesn't fit among the nodes that were ended.
#[derive(Clone, Copy)]
pub(crate) struct Faults {
    // That of a name that no production has.
    pub unknown: Option<usize>,
    // That of a node with a wrong number of children, or of a child of a wrong kind.
    pub wrong: Option<usize>,
}

// The nodes that were begun, the innermost last, and the children that were met, each with its place.
#[derive(Drop)]
pub(crate) struct Builder {
    pub values: Vec<Value>,
    pub places: Vec<usize>,
    pub frames: Vec<Frame>,
    pub faults: Faults,
}

// The number of the first production of a name, or the count of the signatures.
fn number_of(signatures: &Signatures, name: &[u8]) -> usize
    ensures { IsNumberOf signatures.now name.now result }
{
    match signatures.find(name) {
        Some(number) => number,
        None => signatures.len(),
    }
}

// The place of a node whose production isn't there.
fn unknown_in(signatures: &Signatures, production: usize, at: usize) -> Option<usize>
    ensures { (name : List ℕ) (arguments : List Argument) → IsNumberOf signatures.now name production →
        FindsLeast (λ place. IsUnknown signatures.now place name at arguments) (IsKnown signatures.now name at arguments) result }
{
    if production < signatures.len() {
        None
    } else {
        Some(at)
    }
}

impl Faults {
    // The faults once a node with these children is ended too.
    fn with_node(
        self,
        signatures: &Signatures,
        store: &TreeStore,
        frame: Frame,
        values: &[Value],
        places: &[usize],
    ) -> Faults
        requires within { All (IsIn (length store.now)) values.now }
        requires places { length places.now ≡ length values.now }
        ensures { (events : List Event) (name : List ℕ) (arguments : List Argument) (outer : Zipper) →
            zipper events ≡ inside name frame.at arguments outer → IsNumberOf signatures.now name frame.production →
            AllZip (IsStored signatures.now store.now) arguments values.now → map place_of arguments ≡ places.now →
            FindsUnknown signatures.now events self.unknown → FindsWrong signatures.now events self.wrong →
            FindsUnknown signatures.now (End ∷ events) result.unknown × FindsWrong signatures.now (End ∷ events) result.wrong }
    {
        let unknown = unknown_in(signatures, frame.production, frame.at);
        let wrong = wrong_in(
            signatures,
            store,
            frame.production,
            frame.at,
            values,
            places,
        );
        Faults {
            unknown: smaller_of(self.unknown, unknown),
            wrong: smaller_of(self.wrong, wrong),
        }
    }
}

impl Builder {
    // Nothing was met.
    pub(crate) fn new(alloc: Global) -> Builder
        ensures { (signatures : List Signature) (trees : List Tree) → Holds signatures trees [] result }
    {
        Builder {
            values: Vec::new(alloc),
            places: Vec::new(alloc),
            frames: Vec::new(alloc),
            faults: Faults {
                unknown: None,
                wrong: None,
            },
        }
    }

    // A node begins.
    fn begin(&mut self, signatures: &Signatures, name: &Bytes, at: usize) -> Result<(), AllocError>
        ensures ok { OnOk result ((trees : List Tree) (events : List Event) → Holds signatures.now trees events self.old →
            Holds signatures.now trees (Begin name.now at ∷ events) self.new) }
    {
        let production = number_of(signatures, name.as_slice());
        let start = self.values.len();
        push(
            &mut self.frames,
            Frame {
                production,
                at,
                start,
            },
        )
    }

    // A child more, which is the last.
    fn add(&mut self, value: Value, at: usize) -> Result<(), AllocError>
        ensures ok { OnOk result (AddsValue value at self.old self.new) }
    {
        push(&mut self.values, value)?;
        push(&mut self.places, at)
    }

    // A number more, which is the last child.
    fn add_int(&mut self, value: &i64, at: usize) -> Result<(), AllocError>
        ensures ok { OnOk result (AddsValue (Int value.now) at self.old self.new) }
    {
        self.add(Value::Int(*value), at)
    }

    // The faults once the node of this frame is ended, whose children are the last values.
    fn faults_with(&self, signatures: &Signatures, store: &TreeStore, frame: Frame) -> Faults
        requires within { All (IsIn (length store.now)) self.now.values.items }
        requires places { length self.now.places.items ≡ length self.now.values.items }
        requires start { frame.start ≤ length self.now.values.items }
        ensures { (events : List Event) (name : List ℕ) (arguments : List Argument) (outer : Zipper) →
            zipper events ≡ inside name frame.at arguments outer → IsNumberOf signatures.now name frame.production →
            AllZip (IsStored signatures.now store.now) arguments (drop frame.start self.now.values.items) →
            map place_of arguments ≡ drop frame.start self.now.places.items →
            FindsUnknown signatures.now events self.now.faults.unknown → FindsWrong signatures.now events self.now.faults.wrong →
            FindsUnknown signatures.now (End ∷ events) result.unknown × FindsWrong signatures.now (End ∷ events) result.wrong }
    {
        let values = &self.values[frame.start..];
        let places = &self.places[frame.start..];
        self.faults
            .with_node(signatures, store, frame, values, places)
    }

    // The innermost node ends.
    fn end(&mut self, signatures: &Signatures, store: &mut TreeStore) -> Result<(), AllocError>
        requires { HoldsSome signatures.now store.old self.old }
        ensures grown { (more : List Tree) × (store.new ≡ store.old ++ more) }
        ensures ok { OnOk result ((events : List Event) → Holds signatures.now store.old events self.old →
            Holds signatures.now store.new (End ∷ events) self.new) }
    {
        let Some(frame) = self.frames.pop() else {
            return Ok(());
        };
        self.faults = self.faults_with(signatures, store, frame);
        let count = self.values.len() - frame.start;
        let tree = store.build_from(frame.production, &mut self.values, count)?;
        self.places.truncate(frame.start);
        self.add(Value::Tree(tree), frame.at)
    }

    // What is met next. If memory runs out, trees were added at most.
    pub(crate) fn handle(
        &mut self,
        signatures: &Signatures,
        store: &mut TreeStore,
        event: &Event,
    ) -> Result<(), AllocError>
        requires { HoldsSome signatures.now store.old self.old }
        ensures grown { (more : List Tree) × (store.new ≡ store.old ++ more) }
        ensures ok { OnOk result ((events : List Event) → Holds signatures.now store.old events self.old →
            Holds signatures.now store.new (event.now ∷ events) self.new) }
    {
        match event {
            Event::Begin { name, at } => self.begin(signatures, name, *at),
            Event::Int { value, at } => self.add_int(value, *at),
            Event::Bool { value, at } => self.add(Value::Bool(*value), *at),
            Event::Text { value, at } => {
                let text = value.copy()?;
                self.add(Value::Text(text), *at)
            }
            Event::End => self.end(signatures, store),
        }
    }

    // The tree of the whole term, or the fault of the term that comes first.
    pub(crate) fn into_tree(
        mut self,
        signatures: &Signatures,
        store: &TreeStore,
    ) -> Result<TreeId, TermRefusal>
        requires { HoldsTerm signatures.now store.now self }
        ensures ok { IfOk result (λ id. (term : Term) → Holds signatures.now store.now (term_onto term []) self →
            IsTreeOf signatures.now term (tree_in store.now id.0)) }
        ensures within { IfOk result (λ id. id.0 < length store.now) }
        ensures refused { IfErr result (λ e. (term : Term) → Holds signatures.now store.now (term_onto term []) self →
            IsFaultOf signatures.now term e) }
    {
        if let Some(at) = self.faults.unknown {
            return Err(TermRefusal::Unknown(at));
        }
        if let Some(at) = self.faults.wrong {
            return Err(TermRefusal::WrongChild(at));
        }
        match self.values.pop() {
            None => unreachable!(),
            Some(value) => match value {
                Value::Int(_) => unreachable!(),
                Value::Bool(_) => unreachable!(),
                Value::Text(_) => unreachable!(),
                Value::Tree(tree) => Ok(tree),
            },
        }
    }
}
