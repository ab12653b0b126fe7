//! What do the definitions say of themselves?

ghost use Rattle.std.specs.Prelude.{List, map};
ghost use Rattle.wb_base.specs.Different.{Differ};
ghost use Rattle.wb_compose.specs.Written.{name_in};
ghost use Rattle.wb_operations.specs.Operations.{OperationSignature, Operations};
ghost use Rattle.wb_syntax_resolved.specs.declared.resolved.ResolvedParts.{ResolvedParts};
ghost use Rattle.wb_compose_texts.specs.Roots.{HasOneRootAttribute};
ghost use Rattle.wb_compose_texts.specs.Values.{HasOneTextValue};

/// A text, the name of an attribute and a number of steps come to one thing at most, in a host with extensions of different names.
pub fn one_value_law()
    ensures { (host : ResolvedParts) (operations : Operations) (extensions : List ResolvedParts) → Differ (map name_in extensions) → HasOneTextValue host operations extensions }
{}

/// There, a name is that of one attribute at most that may be asked at the start, and none may be asked by it where one may.
pub fn one_root_law()
    ensures { (host : ResolvedParts) (operations : List OperationSignature) (extensions : List ResolvedParts) → Differ (map name_in extensions) → HasOneRootAttribute host operations extensions }
{}
