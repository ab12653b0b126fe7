//! Laws of the definitions: what each says is proved, and there is nothing to run.

ghost use Rattle.std.specs.Prelude.{◌≡◌, List, [], ℕ, Bool, map};
ghost use Rattle.wb_operations.specs.Operations.{OperationSignature, Operations};
ghost use Rattle.wb_compose_texts.specs.Readings.{HasOneReading, HasSameReading, IsUnionReading};
ghost use Rattle.wb_syntax_resolved.specs.declared.resolved.ResolvedParts.{ResolvedParts};
ghost use Rattle.wb_base.specs.Different.{Differ};
ghost use Rattle.wb_scan_theory.specs.Languages.{LanguageView};
ghost use Rattle.wb_syntax_resolved.specs.declared.attribution.AttributionParts.{AttributionParts};
ghost use Rattle.wb_compose.specs.AttributeNumbers.{NumberMap};
ghost use Rattle.wb_compose.specs.Kept.{ExtensionView};
ghost use Rattle.wb_compose.specs.Hosts.{CertifiedView};
ghost use Rattle.wb_compose.specs.Lexicons.{lexicon_of};
ghost use Rattle.wb_compose.specs.Composed.{IsComposed};
ghost use Rattle.wb_compose.specs.Written.{name_in, written_in};
ghost use Rattle.wb_compose_texts.specs.Answers.{IsUnitedTextAnswer};
ghost use Rattle.wb_compose_texts.specs.Unions.{Union, all_resolved};
ghost use Rattle.wb_compose_texts.specs.Values.{IsTextValue};
ghost use Rattle.wb_compose_texts.specs.declared.text_answer.TextAnswer.{TextAnswer};
ghost use Rattle.wb_compose_texts.specs.declared.text_reading.TextReading.{TextReading};
ghost use Rattle.wb_compose_texts.specs.declared.text_reading.TextReading.TheVariants.{Host};
ghost use Rattle.wb_reading.specs.Orders.{IsReordering};
ghost use Rattle.wb_compose_texts.specs.declared.value.TextValue.{TextValue};
ghost use Rattle.wb_reading.specs.Extends.{Extends};
ghost use Rattle.wb_reading.specs.MarkingTerminals.{AreMarking};
ghost use Rattle.wb_compose_texts.specs.Composed.{AreComposed};
ghost use Rattle.wb_compose_texts.specs.HostReadings.{HasHostReading, HasLanguage};
ghost use Rattle.wb_compose_texts.specs.SameRoots.{HasSameRoots, IsHostAttribute};
ghost use Rattle.wb_compose_texts.specs.UnionMarkers.{AreUnionMarkers};

/// The markers of a union by number are its marking terminals.
pub fn markers_law()
    ensures { (host : CertifiedView) (extensions : List ExtensionView) (u : LanguageView) (withdrawn : List ℕ) → (c : IsComposed host extensions u withdrawn) → (markers : List Bool) → AreUnionMarkers host.resolved (all_resolved extensions) markers → AreMarking c.grammar host.resolved.extensible (lexicon_of host.resolved c.grammar) (written_in c.grammar c.extended) markers }
{}

/// What is composed of a host and extensions extends what is composed of the host and none.
pub fn extends_law()
    ensures { (host : CertifiedView) (extensions : List ExtensionView) (h u : LanguageView) (s a : AttributionParts) (markers : List Bool) → AreComposed host extensions h u s a markers → (t : NumberMap) × Extends h u s a t markers }
{}

/// A text without markers has in the language of a host with extensions the printed tree, or the stop, that it has in the host's own.
pub fn tree_law()
    ensures { (host : ResolvedParts) (operations : List OperationSignature) (extensions : List ResolvedParts) → Differ (map name_in extensions) → (text : List ℕ) → HasHostReading host operations extensions text → (answer : TextAnswer) → IsUnitedTextAnswer host operations [] text answer → IsUnitedTextAnswer host operations extensions text answer }
{}

/// And an attribute that may be asked by a name in the host's own has at the root of its tree the printed value or the fault that it has
/// there, or needs more steps in both.
pub fn value_law()
    ensures { (host : ResolvedParts) (operations : Operations) (extensions : List ResolvedParts) → Differ (map name_in extensions) → (text : List ℕ) → HasHostReading host operations.signatures extensions text → (name : List ℕ) (steps : ℕ) (value : TextValue) → IsTextValue host operations [] text name steps value → IsTextValue host operations extensions text name steps value }
{}

/// By the name of an attribute of the host one may be asked at the start with extensions exactly where one may in the host's own language.
pub fn root_law()
    ensures { (host : ResolvedParts) (operations : List OperationSignature) (extensions : List ResolvedParts) → Differ (map name_in extensions) → Union host operations extensions → (name : List ℕ) → IsHostAttribute host name → HasSameRoots host operations extensions name }
{}

/// The other way round, a text without markers has in the host's own language the printed tree, or the stop, that it has with extensions.
pub fn tree_alone_law()
    ensures { (host : ResolvedParts) (operations : List OperationSignature) (extensions : List ResolvedParts) → Differ (map name_in extensions) → (text : List ℕ) → HasHostReading host operations extensions text → HasLanguage host operations [] → (answer : TextAnswer) → IsUnitedTextAnswer host operations extensions text answer → IsUnitedTextAnswer host operations [] text answer }
{}

/// And by the name of an attribute of the host there comes at the root of its tree what comes there with extensions.
pub fn value_alone_law()
    ensures { (host : ResolvedParts) (operations : Operations) (extensions : List ResolvedParts) → Differ (map name_in extensions) → (text : List ℕ) → HasHostReading host operations.signatures extensions text → HasLanguage host operations.signatures [] → (name : List ℕ) → IsHostAttribute host name → (steps : ℕ) (value : TextValue) → IsTextValue host operations extensions text name steps value → IsTextValue host operations [] text name steps value }
{}

/// Without extensions every text has the host reading, and no other. A host that is certified with extensions has a language by itself: that
/// it has none can't be.
pub fn alone_law()
    ensures reading { (host : ResolvedParts) (operations : List OperationSignature) → HasLanguage host operations [] → (text : List ℕ) → IsUnionReading host operations [] text Host }
    ensures only { (host : ResolvedParts) (operations : List OperationSignature) (text : List ℕ) (reading : TextReading) → IsUnionReading host operations [] text reading → reading ≡ Host }
    ensures language { (host : ResolvedParts) (operations : List OperationSignature) (extensions : List ResolvedParts) → Union host operations extensions → ¬ ¬ HasLanguage host operations [] }
{}

/// The order of the extensions doesn't matter for a reading: a text has the same first marker, by name, at the same place, or none.
pub fn reading_order_law()
    ensures { (host : ResolvedParts) (operations : List OperationSignature) (extensions others : List ResolvedParts) (to from : ℕ → ℕ) → IsReordering to from extensions others → HasSameReading host operations extensions others }
{}

/// A text reads in one way at most to a host with extensions: without a marker, or with one first marker at one place.
pub fn one_reading_law()
    ensures { (host : ResolvedParts) (operations : List OperationSignature) (extensions : List ResolvedParts) → HasOneReading host operations extensions }
{}
