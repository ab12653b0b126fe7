//! Laws of the definitions: what each says is proved, and there is nothing to run.

ghost use Rattle.std.specs.Prelude.{ℕ, List};
ghost use Rattle.wb_compose_theory_lists.specs.Extended.{IsExtendedBy, IsHostAlone, IsHostWith};
ghost use Rattle.wb_compose_theory_lists.specs.Hosts.{IsOfRows};
ghost use Rattle.wb_base.specs.Grammar.{GrammarView};
ghost use Rattle.wb_names_theory.specs.Declarations.{Items};
ghost use Rattle.wb_compose_theory_lists.specs.Additions.{Addition, Rows};
ghost use Rattle.wb_compose_theory_lists.specs.Laws.{HasUnionGrammar, IsUnited};
ghost use Rattle.wb_syntax_resolved.specs.declared.resolved.ResolvedParts.{ResolvedParts};

/// The host's rows and then those of each extension, in the union's numbers, are the union of the host and of the host with each extension.
pub fn united_law()
    ensures { (host : Rows) (start : ℕ) (all : List Addition) → IsUnited host start all }
{}

/// The union of the grammars of the host and of the host with each extension has the concrete productions of these lists.
pub fn grammar_law()
    ensures { (host : Rows) (host_grammar : GrammarView) (all : List Addition) (grammars : List GrammarView) → HasUnionGrammar host host_grammar all grammars }
{}

/// The attributes of a host with an extension that keeps its nonterminals are the host's rows with what the extension adds.
pub fn addition_law()
    ensures { (host r : ResolvedParts) (name : List ℕ) (items : Items) (g : GrammarView) → IsExtendedBy host r name items g → IsHostWith host r name g }
{}

/// The attributes of a host without extensions are the lists of its rows.
pub fn host_law()
    ensures { (host : ResolvedParts) (g : GrammarView) → IsHostAlone host g → IsOfRows host g }
{}
