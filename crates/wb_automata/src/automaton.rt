//! Which terminals of a set match a text, and can a match go on?
//!
//! A scanner asks it at each byte, so steps take no memory. How states are found is in `explore`.

ghost use Rattle.std.specs.Prelude.{◌≡◌, ◌<◌, ◌≤◌, ◌↔◌, ◌++◌, ◌∷◌, ℕ, [], Contains, IfOk, IfSome, IsNone, IsTrue, List, Some, length, slice_get};
ghost use Rattle.wb_automata.specs.Automata.{IsMatch, MatchesIn, GoesOn, LeadsTo, IsOrdered, Path, most_states};
ghost use Rattle.wb_automata_positions.specs.Rising.{AreRising};
ghost use Rattle.wb_automata_positions.specs.Tables.{AreTables};

use crate::explore::{Explored, explore};
use crate::flat_rows::FlatRows;
use crate::moves::state_from;
use crate::predecessor::Predecessor;
use crate::text::text_at;
use std::alloc::{AllocError, Global};
use std::marker::Model;
use wb_automata_positions::{Tables, classes_of, tables_of};
use wb_base::{Bytes, push};
use wb_regex::Regex;
use wb_termset::TermSet;

/// States that tell texts apart by what may still come: the steps over a text from the start of a set of terminals lead
/// to a state that accepts exactly the terminals of this set that match the text.
///
/// Terminals and sets are numbered by their places in the lists that the automaton was built from. States are numbered
/// by the paths by which they were found: by sets, and for each set by texts, shorter ones first and then by bytes.
/// Several sets may share a state, where the same of their terminals may still match.
pub struct Automaton {
    terminals: Vec<Regex>,
    sets: Vec<TermSet>,
    starts: Vec<usize>,
    classes: Vec<u8>,
    width: usize,
    moves: Vec<u32>,
    accepted: FlatRows,
    predecessors: Vec<Predecessor>,
}

impl Model for Automaton {
    ghost use Rattle.std.specs.Prelude.{map};
    ghost use Rattle.wb_automata.specs.Automata.{AutomatonView};
    ghost use Rattle.wb_automata.specs.Moves.{move_at};
    ghost use Rattle.wb_automata.specs.Paths.{paths_of};
    ghost use Rattle.wb_automata.specs.Kept.{IsAutomaton};
    ghost use Rattle.wb_automata.specs.Inner.ViewCode.{coded_automaton};

    ghost Value = { AutomatonView };

    ghost coded = { coded_automaton };

    ghost view = { λ a. record { terminals = a.terminals.items; sets = a.sets.items; paths = paths_of a.predecessors.items } };

    ghost invariant = { λ a. IsAutomaton (record { terminals = a.terminals.items; sets = a.sets.items; paths = paths_of a.predecessors.items }) a.starts.items a.classes.items a.width (map move_at a.moves.items) a.accepted };
}

impl Automaton {
    /// The automaton of these expressions and sets of them, of which it keeps copies.
    ///
    /// Members of a set that aren't below the number of terminals count for nothing. Terminals that are in no common set
    /// don't multiply; those of one set may: at worst its states double with each byte that a choice has to remember.
    pub fn build(
        alloc: Global,
        terminals: &[Regex],
        sets: &[TermSet],
    ) -> Result<Automaton, AllocError>
        ensures terminals { IfOk result (λ automaton. automaton.terminals ≡ terminals.now) }
        ensures sets { IfOk result (λ automaton. automaton.sets ≡ sets.now) }
    {
        let tables = tables_of(alloc, terminals, sets)?;
        from_tables(alloc, terminals, sets, tables)
    }

    /// The expressions of the terminals.
    pub fn terminals(&self) -> &[Regex]
        ensures value { result.now ≡ self.now.terminals }
        ensures not_empty { (terminal : ℕ) → ¬ IsMatch self.now.terminals terminal [] }
        ensures filled { (terminal : ℕ) → terminal < length self.now.terminals → (text : List ℕ) × IsMatch self.now.terminals terminal text }
    {
        &self.terminals
    }

    /// The sets of terminals.
    pub fn sets(&self) -> &[TermSet]
        ensures { result.now ≡ self.now.sets }
    {
        &self.sets
    }

    /// How many states there are, numbered from 0 on.
    pub fn states(&self) -> usize
        ensures count { result ≡ length self.now.paths }
        ensures few { result ≤ most_states self.now.terminals }
        ensures ordered { IsOrdered self.now }
    {
        self.predecessors.len()
    }

    /// The state of the empty text, at the start of a set.
    pub fn start(&self, set: usize) -> usize
        requires { set < length self.now.sets }
        ensures state { result < length self.now.paths }
        ensures leads { LeadsTo self.now set [] result }
    {
        self.starts[set]
    }

    /// The state after one byte more, or None where no match of a terminal of the set goes on so.
    pub fn step(&self, state: usize, byte: u8) -> Option<usize>
        requires { state < length self.now.paths }
        ensures state { IfSome result (λ next. next < length self.now.paths) }
        ensures leads { IfSome result (λ next. (set : ℕ) (text : List ℕ) → LeadsTo self.now set text state → LeadsTo self.now set (text ++ byte ∷ []) next) }
        ensures none { (set : ℕ) (text : List ℕ) → LeadsTo self.now set text state → IsNone result ↔ (¬ GoesOn self.now set (text ++ byte ∷ [])) }
    {
        let class = usize::from(self.classes[usize::from(byte)]);
        state_from(self.moves[state * self.width + class])
    }

    /// Whether the terminal is in the sets and matches the texts that lead to the state.
    pub fn accepts(&self, state: usize, terminal: usize) -> bool
        requires { state < length self.now.paths }
        ensures { (set : ℕ) (text : List ℕ) → LeadsTo self.now set text state → IsTrue result ↔ MatchesIn self.now set terminal text }
    {
        has(self.accepted(state), terminal)
    }

    /// The terminals that are in the sets and match the texts that lead to the state, in order.
    pub fn accepted(&self, state: usize) -> &[usize]
        requires { state < length self.now.paths }
        ensures exact { (terminal set : ℕ) (text : List ℕ) → LeadsTo self.now set text state → Contains result.now terminal ↔ MatchesIn self.now set terminal text }
        ensures rising { AreRising result.now }
    {
        self.accepted.row(state)
    }

    /// The set from whose start the state was found.
    pub fn set(&self, state: usize) -> usize
        requires { state < length self.now.paths }
        ensures path { (path : Path) → slice_get self.now.paths state ≡ Some path → result ≡ path.set }
        ensures below { result < length self.now.sets }
    {
        self.predecessors[state].set
    }

    /// The text by which the state was found.
    pub fn text(&self, alloc: Global, state: usize) -> Result<Bytes, AllocError>
        requires { state < length self.now.paths }
        ensures { IfOk result (λ text. (path : Path) → slice_get self.now.paths state ≡ Some path → text ≡ path.text) }
    {
        text_at(alloc, &self.predecessors, state)
    }
}

impl Drop for Automaton {
    fn drop(self) {
        let Automaton {
            terminals,
            sets,
            starts,
            classes,
            width: _,
            moves,
            accepted,
            predecessors,
        } = self;
        drop(terminals);
        drop(sets);
        drop(starts);
        drop(classes);
        drop(moves);
        drop(accepted);
        drop(predecessors);
    }
}

// The automaton with these tables.
fn from_tables(
    alloc: Global,
    terminals: &[Regex],
    sets: &[TermSet],
    tables: Tables,
) -> Result<Automaton, AllocError>
    requires { AreTables terminals.now sets.now tables }
    ensures terminals { IfOk result (λ automaton. automaton.terminals ≡ terminals.now) }
    ensures sets { IfOk result (λ automaton. automaton.sets ≡ sets.now) }
{
    let classes = classes_of(alloc, tables.nodes.as_slice())?;
    let explored = explore(alloc, &tables, classes.firsts.as_slice())?;
    drop(tables);
    let kept = kept_of(alloc, terminals, sets)?;
    let Explored {
        states,
        rows,
        starts,
    } = explored;
    Ok(Automaton {
        terminals: kept.terminals,
        sets: kept.sets,
        starts,
        classes: classes.of,
        width: classes.firsts.len(),
        moves: rows.moves.into_codes(),
        accepted: rows.accepted,
        predecessors: states.into_predecessors(),
    })
}

// Copies of terminals and sets.
#[derive(Drop)]
struct Kept {
    terminals: Vec<Regex>,
    sets: Vec<TermSet>,
}

fn kept_of(alloc: Global, terminals: &[Regex], sets: &[TermSet]) -> Result<Kept, AllocError>
    ensures terminals { IfOk result (λ kept. kept.terminals.items ≡ terminals.now) }
    ensures sets { IfOk result (λ kept. kept.sets.items ≡ sets.now) }
{
    let terminals = copies(alloc, terminals)?;
    let sets = set_copies(alloc, sets)?;
    Ok(Kept { terminals, sets })
}

fn copies(alloc: Global, terminals: &[Regex]) -> Result<Vec<Regex>, AllocError>
    ensures { IfOk result (λ kept. kept.items ≡ terminals.now) }
{
    let mut kept = Vec::new(alloc);
    for regex in terminals {
        push(&mut kept, regex.copy()?)?;
    }
    Ok(kept)
}

fn set_copies(alloc: Global, sets: &[TermSet]) -> Result<Vec<TermSet>, AllocError>
    ensures { IfOk result (λ kept. kept.items ≡ sets.now) }
{
    let mut kept = Vec::new(alloc);
    for set in sets {
        push(&mut kept, set.copy()?)?;
    }
    Ok(kept)
}

// Whether the number is one of these.
pub(crate) fn has(numbers: &[usize], number: usize) -> bool
    ensures { IsTrue result ↔ Contains numbers.now number }
{
    numbers.contains(&number)
}
