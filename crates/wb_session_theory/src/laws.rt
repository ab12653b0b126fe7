//! Laws of the definitions: what each says is proved, and there is nothing to run.

ghost use Rattle.std.specs.Prelude.{◌≡◌, ◌<◌, ◌≤◌, ◌+◌, ◌↔◌, ◌++◌, ◌∷◌, [], ℕ, List, length, max, slice_range};
ghost use Rattle.wb_base.specs.declared.symbol.Symbol.{Symbol};
ghost use Rattle.wb_base.specs.Grammar.{GrammarView, IsGrammar};
ghost use Rattle.wb_grammar_theory.specs.Items.{IsViablePrefix, SameKernel};
ghost use Rattle.wb_grammar_theory.specs.Trees.{Forest, nothing, symbols};
ghost use Rattle.wb_lookahead.specs.Contents.{TablesView, size_of};
ghost use Rattle.wb_values.specs.Tree.{Tree, Values};
ghost use Rattle.wb_values.specs.ValuesIn.{values_in};
ghost use Rattle.wb_values.specs.declared.value.Value.{Value};
ghost use Rattle.wb_scan_theory.specs.Languages.{LanguageView};
ghost use Rattle.wb_scan_theory.specs.Machine.{Keeps, joined};
ghost use Rattle.wb_scan_theory.specs.Tokens.{Next, NextToken};
ghost use Rattle.wb_scan_theory.specs.Texts.{ParsesTo};
ghost use Rattle.wb_scan_theory.specs.Bounds.{nodes};
ghost use Rattle.wb_scan_theory.specs.Facts.{IsLanguage};
ghost use Rattle.wb_scan_theory.specs.Parts.{AreTablesOf, AreLanguageParts, IsPrefixOf};
ghost use Rattle.wb_scan_theory.specs.Shown.{values_of};
ghost use Rattle.wb_scan.specs.Views.{LanguageParts};
ghost use Rattle.wb_scan.specs.Scans.{next_in, IsInside};
ghost use Rattle.wb_scan.specs.declared.scanned.Scanned.{Scanned};
ghost use Rattle.wb_automata.specs.Automata.{AutomatonView, GoesOn};
ghost use Rattle.wb_parser_states.specs.Stacks.{AreStates};
ghost use Rattle.wb_scan_theory.specs.Examined.{IsExamined, IsLooked, HasSameFront, Scans};
ghost use Rattle.wb_session_theory.specs.Rests.{SameRest, IsMoved};
ghost use Rattle.wb_session_theory.specs.Runs.{Reads, Answer, a_tree, IsAnswer, Ends};
ghost use Rattle.wb_session_theory.specs.Frames.{Frame, roots, filled, holes, rebuilt, shared, depth, IsSpine, Outcome, shown, HasSpine};
ghost use Rattle.wb_session_theory.specs.Refilled.{refilled};
ghost use Rattle.wb_session_theory.specs.Edits.{edited};
ghost use Rattle.wb_session_theory.specs.Over.{ReadsOver};
ghost use Rattle.wb_session_theory.specs.Links.{Entry, IsChain, states_in, HasSameLinks};

/// What is next on a text is next on each other one that agrees with it in what is examined.
pub fn examined_law()
    ensures same { (l : LanguageView) → IsLanguage l → (text other : List ℕ) (prefix : List Symbol) (at e : ℕ) → IsExamined l text prefix at e → HasSameFront e text other → (next : Next) → NextToken l text prefix at next ↔ NextToken l other prefix at next }
    ensures scanned { (count : ℕ) (text other : List ℕ) (at : ℕ) (one two : Scanned) → next_in text one ≡ next_in other two → IsInside count (length text) at one → IsInside count (length other) at two → one ≡ two }
    ensures seen { (l : LanguageView) (tables : TablesView) (automaton : AutomatonView) → AreLanguageParts l tables automaton → (state : ℕ) → state < size_of tables → (prefix : List Symbol) → IsPrefixOf l.grammar tables state prefix → (text : List ℕ) (at e : ℕ) → at < e → e ≤ length text → ¬ GoesOn automaton state (slice_range text at e) → IsLooked l text prefix at e }
    ensures on { (l : LanguageView) (text : List ℕ) (prefix : List Symbol) (at e : ℕ) → IsExamined l text prefix at e → at < e }
    ensures some { (l : LanguageView) (tables : TablesView) → IsLanguage l → AreTablesOf l.grammar tables → (text : List ℕ) (prefix : List Symbol) → IsViablePrefix l.grammar prefix → (at : ℕ) → at ≤ length text → IsExamined l text prefix at (length text + 1) }
{}

/// What is next depends on the state alone, and behind an edit on the rest of the text alone.
pub fn moved_law()
    ensures state { (l : LanguageView) (tables : TablesView) → IsLanguage l → (state : ℕ) (prefix other : List Symbol) → IsPrefixOf l.grammar tables state prefix → IsPrefixOf l.grammar tables state other → (text : List ℕ) (e at : ℕ) (next : Next) → Scans l text prefix e at next → Scans l text other e at next }
    ensures rest { (l : LanguageView) (prefix : List Symbol) (x y : List ℕ) (a b : ℕ) → SameRest x a y b → (e k : ℕ) (next : Next) → Scans l x prefix (a + e) (a + k) next → (next' : Next) × IsMoved a b next next' × Scans l y prefix (b + e) (b + k) next' }
{}

/// A stack before a token is kept by an edit of what was not yet looked at, is the only one there, is one on which the parser goes on, and
/// the answer that is found from there is that of the text.
pub fn kept_law()
    ensures edit { (l : LanguageView) (text bytes : List ℕ) (from to e at : ℕ) (stack : Forest) → from ≤ to → to ≤ length text → e ≤ from → Reads l text e [] nothing 0 stack at → Reads l (edited text from to bytes) e [] nothing 0 stack at }
    ensures once { (l : LanguageView) → IsLanguage l → (text : List ℕ) (e d at : ℕ) (one other : Forest) → Reads l text e [] nothing 0 one at → Reads l text d [] nothing 0 other at → one ≡ other }
    ensures between { (l : LanguageView) → IsLanguage l → (text : List ℕ) (e d at end : ℕ) (one other : Forest) → Reads l text e [] nothing 0 one at → Reads l text d [] nothing 0 other end → at ≤ end → Reads l text d [] one at other end }
    ensures keeps { (l : LanguageView) → IsLanguage l → (text : List ℕ) (e at : ℕ) (stack : Forest) → Reads l text e [] nothing 0 stack at → Keeps l.grammar (NextToken l text) stack (symbols stack) at }
    ensures answer { (l : LanguageView) → IsLanguage l → (text : List ℕ) (e at : ℕ) (stack : Forest) (answer : Answer) → Reads l text e [] nothing 0 stack at → Ends l text e stack at answer → IsAnswer l text answer }
    ensures one { (l : LanguageView) → IsLanguage l → (text : List ℕ) (one other : Answer) → IsAnswer l text one → IsAnswer l text other → one ≡ other }
    ensures goes_on { (l : LanguageView) (tables : TablesView) → IsLanguage l → AreTablesOf l.grammar tables → (text : List ℕ) (e at : ℕ) (stack : Forest) → at ≤ length text → Reads l text e [] nothing 0 stack at → (last : Forest) × (place : ℕ) × (answer : Answer) × Reads l text (length text + 1) [] stack at last place × Ends l text (length text + 1) last place answer }
    ensures unchanged { (l : LanguageView) → IsLanguage l → (text bytes : List ℕ) (from to e at : ℕ) (stack : Forest) (answer : Answer) → from ≤ to → to ≤ length text → e ≤ from → Reads l text e [] nothing 0 stack at → Ends l text e stack at answer → IsAnswer l (edited text from to bytes) answer }
{}

/// All prefixes of a state have one kernel, and stacks of the same states have roots of the same symbols.
pub fn states_law()
    ensures kernel { (g : GrammarView) (tables : TablesView) → IsGrammar g → (state : ℕ) (prefix other : List Symbol) → IsPrefixOf g tables state prefix → IsPrefixOf g tables state other → SameKernel g prefix other }
    ensures symbols { (g : GrammarView) (tables : TablesView) → IsGrammar g → (prefix prefix' : List Symbol) (states : List ℕ) (stack other : Forest) → AreStates g tables prefix states stack → AreStates g tables prefix' states other → symbols stack ≡ symbols other }
    ensures same { (g : GrammarView) (tables : TablesView) (prefix : List Symbol) (states : List ℕ) (stack other : Forest) → AreStates g tables prefix states stack → symbols stack ≡ symbols other → AreStates g tables prefix states other }
{}

/// Where behind an edit both parsers stand on the same states, the old run to its end is one of the new text: the new answer is the old one
/// with the new stack's trees in the places of the old stack's.
pub fn rejoin_law()
    ensures rest { (l : LanguageView) (tables : TablesView) → IsLanguage l → (x y : List ℕ) (a b : ℕ) → SameRest x a y b → (d f e k at : ℕ) (states : List ℕ) (base other stack : Forest) (answer : Answer) → Reads l x d [] nothing 0 base (a + k) → Reads l x (a + e) [] base (a + k) stack at → Ends l x (a + e) stack at answer → Reads l y f [] nothing 0 other (b + k) → AreStates l.grammar tables [] states base → AreStates l.grammar tables [] states other → (outcome : Outcome) × (answer ≡ shown a base outcome) × HasSpine (roots base) outcome × IsAnswer l y (shown b other outcome) }
    ensures later { (l : LanguageView) (tables : TablesView) → IsLanguage l → (text bytes : List ℕ) (from to : ℕ) → from ≤ to → to ≤ length text → (f e k at : ℕ) (states : List ℕ) (base other stack : Forest) → Reads l text (to + e) [] base (to + k) stack at → Reads l (edited text from to bytes) f [] nothing 0 other (from + length bytes + k) → AreStates l.grammar tables [] states base → AreStates l.grammar tables [] states other → (frame : Frame) × (j : ℕ) × (stack ≡ filled frame base) × (at ≡ to + j) × IsSpine (roots base) 0 frame × Reads l (edited text from to bytes) (max f (from + length bytes + e)) [] nothing 0 (filled frame other) (from + length bytes + j) }
    ensures answer { (l : LanguageView) (tables : TablesView) → IsLanguage l → (text bytes : List ℕ) (from to : ℕ) → from ≤ to → to ≤ length text → (d f e k at : ℕ) (states : List ℕ) (base other stack : Forest) (answer : Answer) → Reads l text d [] nothing 0 base (to + k) → Reads l text (to + e) [] base (to + k) stack at → Ends l text (to + e) stack at answer → Reads l (edited text from to bytes) f [] nothing 0 other (from + length bytes + k) → AreStates l.grammar tables [] states base → AreStates l.grammar tables [] states other → (outcome : Outcome) × (answer ≡ shown to base outcome) × HasSpine (roots base) outcome × IsAnswer l (edited text from to bytes) (shown (from + length bytes) other outcome) }
{}

/// Tokens that were read without taking apart what is below some states are read as before over any stack with these states and one state
/// below them, in any text with this rest.
pub fn carry_law()
    ensures tokens { (l : LanguageView) (tables : TablesView) → IsLanguage l → (x y : List ℕ) (a b : ℕ) → SameRest x a y b → (e k at state : ℕ) (states : List ℕ) (low low' base other stack : Forest) → IsPrefixOf l.grammar tables state (symbols low) → IsPrefixOf l.grammar tables state (symbols low') → AreStates l.grammar tables (symbols low) states base → AreStates l.grammar tables (symbols low') states other → Reads l x (a + e) (symbols low) base (a + k) stack at → (frame : Frame) × (j : ℕ) × (stack ≡ filled frame base) × (at ≡ a + j) × IsSpine (roots base) 0 frame × Reads l y (b + e) [] (joined low' other) (b + k) (joined low' (filled frame other)) (b + j) }
    ensures above { (l : LanguageView) (text : List ℕ) (e at at' : ℕ) (low base stack : Forest) → ReadsOver l text e (roots low) (joined low base) at stack at' → (lifted : Forest) × (stack ≡ joined low lifted) × Reads l text e (symbols low) base at lifted at' }
    ensures trees { (l : LanguageView) (tables : TablesView) → IsLanguage l → (x y : List ℕ) (a b : ℕ) → SameRest x a y b → (e k at state : ℕ) (low low' piece : Forest) → IsPrefixOf l.grammar tables state (symbols low) → IsPrefixOf l.grammar tables state (symbols low') → Reads l x (a + e) (symbols low) nothing (a + k) piece at → (j : ℕ) × (at ≡ a + j) × Reads l y (b + e) [] low' (b + k) (joined low' piece) (b + j) }
{}

/// What has to be built anew: nodes without holes stay, those with holes are one below the other, so no more than the new tree is deep; and
/// their values need no more than those in the holes.
pub fn rebuilt_law()
    ensures stays { (frame : Frame) → holes frame ≡ 0 → (stack other : Forest) → filled frame stack ≡ filled frame other }
    ensures few { (n : ℕ) (frame : Frame) → IsSpine n 0 frame → (stack : Forest) → rebuilt frame ≤ depth (filled frame stack) }
    ensures nodes { (frame : Frame) (stack : Forest) → IsSpine (roots stack) 0 frame → nodes (filled frame stack) ≡ rebuilt frame + shared frame + nodes stack }
    ensures values { (frame : Frame) (stack : Forest) → values_of (filled frame stack) ≡ refilled frame (values_of stack) }
{}

/// Rests of texts over several edits.
pub fn rests_law()
    ensures edit { (text bytes : List ℕ) (from to : ℕ) → from ≤ to → to ≤ length text → SameRest text to (edited text from to bytes) (from + length bytes) }
    ensures both { (x y z : List ℕ) (a b c : ℕ) → SameRest x a y b → SameRest y b z c → SameRest x a z c }
    ensures later { (x y : List ℕ) (a b k : ℕ) → SameRest x a y b → a + k ≤ length x → SameRest x (a + k) y (b + k) }
{}

/// Stacks that share what is below them are kept by one entry a push: more entries, and other values in old ones, change no other stack's
/// states.
pub fn links_law()
    ensures push { (entries : List Entry) (top : ℕ) (stack : List (ℕ × ℕ)) → IsChain entries top stack → (state value : ℕ) → IsChain (entries ++ (record { state = state; value = value; below = top }) ∷ []) (1 + length entries) ((state, value) ∷ stack) }
    ensures kept { (entries more : List Entry) (top : ℕ) (stack : List (ℕ × ℕ)) → IsChain entries top stack → IsChain (entries ++ more) top stack }
    ensures once { (entries : List Entry) (top : ℕ) (stack other : List (ℕ × ℕ)) → IsChain entries top stack → IsChain entries top other → stack ≡ other }
    ensures written { (entries entries' : List Entry) → HasSameLinks entries entries' → (top : ℕ) (stack : List (ℕ × ℕ)) → IsChain entries top stack → (other : List (ℕ × ℕ)) × IsChain entries' top other × (states_in other ≡ states_in stack) }
{}
