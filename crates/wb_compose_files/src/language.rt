//! What is composed of a certified host and extensions? Their language, and what shows its trees. Texts share it.

ghost use Rattle.std.specs.Prelude.{◌≡◌, IfOk};
ghost use Rattle.wb_compose_texts.specs.Composed.{IsComposed};
ghost use Rattle.wb_compose_files.specs.Languages.{AreSignatures, AreTerminals, IsTextLanguage};
ghost use Rattle.wb_compose_files.specs.Fields.{parts_of};

use crate::Certified;
use std::alloc::{AllocError, Global};
use std::marker::Model;
use std::rc::Rc;
use wb_base::{Bytes, Sequence};
use wb_compose_texts::{Composed, compose, united_signatures, united_terminals};
use wb_scan::Language;
use wb_values::Signatures;

// The signatures of the productions of a language, and the printed names of its terminals, by number.
pub(crate) struct Shown {
    pub(crate) signatures: Signatures,
    pub(crate) terminals: Sequence<Bytes>,
}

impl Drop for Shown {
    fn drop(self) {
        let Shown {
            signatures,
            terminals,
        } = self;
        drop(signatures);
        drop(terminals);
    }
}

// A host and extensions, what is composed of them, and what shows it.
pub(crate) struct Fields {
    pub(crate) certified: Certified,
    pub(crate) composed: Composed,
    pub(crate) shown: Shown,
}

impl Drop for Fields {
    fn drop(self) {
        let Fields {
            certified,
            composed,
            shown,
        } = self;
        certified.release();
        composed.release();
        drop(shown);
    }
}

/// The language that is composed of a certified host and extensions, beside these, and the signatures of its productions and the names of
/// its terminals, by number.
pub struct TextLanguage {
    fields: Rc<Fields>,
}

impl Model for TextLanguage {
    ghost use Rattle.std.specs.Coded.{codes};
    ghost use Rattle.std.specs.Rc.{rc_value};
    ghost use Rattle.wb_regex.specs.contracts.regex.Regex as regex;
    ghost use Rattle.wb_compose_files.specs.Languages.{TextLanguageParts, IsTextLanguage};
    ghost use Rattle.wb_compose_files.specs.Fields.{parts_of};

    ghost Value = { TextLanguageParts };

    ghost coded = { Prim.hlevel (codes, regex.the_row.coded) };

    ghost view = { λ l. parts_of (rc_value l.fields) };

    ghost invariant = { λ l. IsTextLanguage (parts_of (rc_value l.fields)) };
}

impl Drop for TextLanguage {
    fn drop(self) {
        let TextLanguage { fields } = self;
        drop(fields);
    }
}

impl TextLanguage {
    /// The language of a certified host with extensions. The only error is out of memory. No clause bounds the time.
    pub fn of(alloc: Global, certified: Certified) -> Result<TextLanguage, AllocError>
        ensures of { IfOk result (λ made. made.certified ≡ certified) }
        ensures is { IfOk result IsTextLanguage }
    {
        match shown_of(alloc, &certified) {
            Ok(shown) => with_shown(alloc, certified, shown),
            Err(error) => {
                certified.release();
                Err(error)
            }
        }
    }

    /// The same language, which is shared. The only error is that something has too many copies to be counted.
    pub fn copy(&self) -> Result<TextLanguage, AllocError>
        ensures { IfOk result (λ made. made ≡ self.now) }
    {
        Ok(TextLanguage {
            fields: self.fields.clone()?,
        })
    }

    /// The host and the extensions.
    pub fn certified(&self) -> &Certified
        ensures { result.now ≡ self.now.certified }
    {
        &self.fields.certified
    }

    // What is composed of them.
    pub(crate) fn composed(&self) -> &Composed
        ensures { IsComposed self.now.certified.host self.now.certified.extensions result.now.language.language result.now.withdrawn.items }
    {
        &self.fields.composed
    }

    /// The language.
    pub fn language(&self) -> &Language
        ensures language { result.now ≡ self.now.language }
        ensures is { IsTextLanguage self.now }
    {
        self.fields.composed.language()
    }

    /// The signatures of its productions.
    pub fn signatures(&self) -> &Signatures
        ensures { result.now ≡ self.now.signatures }
    {
        &self.fields.shown.signatures
    }

    /// The printed names of its terminals.
    pub fn terminals(&self) -> &[Bytes]
        ensures { result.now ≡ self.now.terminals }
    {
        self.fields.shown.terminals.as_slice()
    }
}

// The language of a certified host with extensions, with what shows it.
fn with_shown(alloc: Global, certified: Certified, shown: Shown) -> Result<TextLanguage, AllocError>
    requires signatures { AreSignatures certified shown.signatures }
    requires terminals { AreTerminals certified shown.terminals }
    ensures of { IfOk result (λ made. made.certified ≡ certified) }
    ensures is { IfOk result IsTextLanguage }
{
    match composed_of(alloc, &certified) {
        Ok(composed) => shared(
            alloc,
            Fields {
                certified,
                composed,
                shown,
            },
        ),
        Err(error) => {
            certified.release();
            drop(shown);
            Err(error)
        }
    }
}

// The language of these fields.
fn shared(alloc: Global, fields: Fields) -> Result<TextLanguage, AllocError>
    requires { IsTextLanguage (parts_of fields) }
    ensures of { IfOk result (λ made. made ≡ parts_of fields) }
    ensures is { IfOk result IsTextLanguage }
{
    Ok(TextLanguage {
        fields: Rc::new(alloc, fields)?,
    })
}

// What is composed of a host and extensions.
fn composed_of(alloc: Global, certified: &Certified) -> Result<Composed, AllocError>
    ensures { IfOk result (λ made. IsComposed certified.now.host certified.now.extensions made.language.language made.withdrawn.items) }
{
    compose(alloc, certified.certified_host(), certified.extensions())
}

// What shows a host with extensions.
fn shown_of(alloc: Global, certified: &Certified) -> Result<Shown, AllocError>
    ensures signatures { IfOk result (λ made. AreSignatures certified.now made.signatures) }
    ensures terminals { IfOk result (λ made. AreTerminals certified.now made.terminals) }
{
    let signatures = signatures_of(alloc, certified)?;
    match terminals_of(alloc, certified) {
        Ok(terminals) => Ok(Shown {
            signatures,
            terminals,
        }),
        Err(error) => {
            drop(signatures);
            Err(error)
        }
    }
}

// The printed names of the terminals of a host with extensions.
fn terminals_of(alloc: Global, certified: &Certified) -> Result<Sequence<Bytes>, AllocError>
    ensures { IfOk result (AreTerminals certified.now) }
{
    united_terminals(alloc, certified.certified_host(), certified.extensions())
}

// The signatures of the productions of a host with extensions.
fn signatures_of(alloc: Global, certified: &Certified) -> Result<Signatures, AllocError>
    ensures { IfOk result (AreSignatures certified.now) }
{
    united_signatures(alloc, certified.certified_host(), certified.extensions())
}
