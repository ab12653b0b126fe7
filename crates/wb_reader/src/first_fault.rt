//! What does the place of a first error say of bytes?
//!
//! A law alone, since the refusal speaks of tokens: `specs/Refusals.antt`. It is read in `specs/FirstFault.antt`.

ghost use Rattle.wb_reader.specs.FirstFault.{FaultsAreFirst};

/// Where bytes are refused with `Syntax`, those before the place begin some specification's text, and with what is at the place none does.
pub fn first_fault_law()
    ensures { FaultsAreFirst }
{}
