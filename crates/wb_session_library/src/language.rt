//! Which language is composed over the standard operations?

ghost use Rattle.std.specs.Prelude.{◌≡◌, IfOk, MatchOption};
ghost use Rattle.wb_compose_files.specs.Languages.{IsTextLanguage};
ghost use Rattle.wb_compose_files.specs.Roots.{HasNoRootAttribute};
ghost use Rattle.wb_compose_files.specs.Unions.{all_resolved};
ghost use Rattle.wb_compose_files.specs.TextValues.{IsTextValue};
ghost use Rattle.wb_operations.specs.Standard.{standard, standard_signatures};

use crate::StandardHost;
use std::alloc::{AllocError, Global};
use std::marker::Model;
use wb_compose_files::{Certified, TextLanguage, TextValue};
use wb_operations::standard_table;

/// A language that is composed of a host over the standard operations and extensions.
pub struct StandardLanguage {
    language: TextLanguage,
}

impl Model for StandardLanguage {
    ghost use Rattle.std.specs.Prelude.{◌≡◌};
    ghost use Rattle.std.specs.Coded.{codes};
    ghost use Rattle.wb_regex.specs.contracts.regex.Regex as regex;
    ghost use Rattle.wb_compose_files.specs.Languages.{TextLanguageParts};
    ghost use Rattle.wb_operations.specs.Standard.{standard_signatures};

    ghost Value = { TextLanguageParts };

    ghost coded = { Prim.hlevel (codes, regex.the_row.coded) };

    ghost view = { λ l. l.language };

    ghost invariant = { λ l. l.language.certified.host.operations ≡ standard_signatures };
}

impl Drop for StandardLanguage {
    fn drop(self) {
        let StandardLanguage { language } = self;
        drop(language);
    }
}

impl StandardLanguage {
    /// The language of a host with its extensions. The only error is out of memory. No clause bounds the time.
    pub fn of(alloc: Global, host: StandardHost) -> Result<StandardLanguage, AllocError>
        ensures of { IfOk result (λ made. made.certified ≡ host) }
        ensures is { IfOk result IsTextLanguage }
    {
        made_of(alloc, host.into_certified())
    }

    /// The same language, which is shared. The only error is that something has too many copies to be counted.
    pub fn copy(&self) -> Result<StandardLanguage, AllocError>
        ensures { IfOk result (λ made. made ≡ self.now) }
    {
        Ok(StandardLanguage {
            language: self.language.copy()?,
        })
    }

    /// The language with what shows it.
    pub fn inner(&self) -> &TextLanguage
        ensures { result.now ≡ self.now }
    {
        &self.language
    }

    /// What comes of a text and the attribute of a printed name at its root, within so many steps, or None where no such attribute may be
    /// asked there. The only error is out of memory.
    ///
    /// A step is an instance that is needed, counted once. No clause bounds the time.
    pub fn value(
        &self,
        alloc: Global,
        text: &[u8],
        name: &[u8],
        steps: u64,
    ) -> Result<Option<TextValue>, AllocError>
        ensures { IfOk result (λ found. MatchOption found
            (HasNoRootAttribute self.now.certified.host.resolved standard_signatures (all_resolved self.now.certified.extensions) name.now)
            (IsTextValue self.now.certified.host.resolved (record { signatures = standard_signatures; meaning = standard }) (all_resolved self.now.certified.extensions) text.now name.now steps)) }
    {
        let operations = standard_table(alloc)?;
        let answer = self.language.value(alloc, text, name, steps, &operations);
        drop(operations);
        answer
    }
}

// The language of what is certified over the standard operations.
fn made_of(alloc: Global, certified: Certified) -> Result<StandardLanguage, AllocError>
    requires { certified.host.operations ≡ standard_signatures }
    ensures of { IfOk result (λ made. made.certified ≡ certified) }
    ensures is { IfOk result IsTextLanguage }
{
    Ok(StandardLanguage {
        language: TextLanguage::of(alloc, certified)?,
    })
}
