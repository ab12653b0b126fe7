//! Which certified host with extensions are the contents of files?

ghost use Rattle.std.specs.Prelude.{◌≡◌, [], IfSome, true};
ghost use Rattle.wb_compose_files.specs.Certified.{Extends};
ghost use Rattle.wb_explain_language.specs.Languages.{AreCertifiedIn};
ghost use Rattle.wb_explain_language.specs.Inner.Added.{HasAdded};

use std::alloc::Global;
use wb_base::Bytes;
use wb_compose_files::Certified;
use wb_operations::{Meaning, OperationTable};

/// The certified host with extensions that these contents are, that of the host first and those of the extensions in their order. None where
/// one of them isn't certified, and where memory runs out.
pub fn certified_of<M: Meaning>(
    alloc: Global,
    operations: &OperationTable<M>,
    files: &[Bytes],
) -> Option<Certified>
    ensures { IfSome result (AreCertifiedIn operations.now.signatures files.now) }
{
    let [host, extensions @ ..] = files else {
        return None;
    };
    match Certified::host(alloc, host.as_slice(), operations) {
        Ok(certified) => extended(alloc, operations, extensions, certified),
        Err(_) => None,
    }
}

// A host with the extensions that these contents are. None where one of them isn't certified.
fn extended<M: Meaning>(
    alloc: Global,
    operations: &OperationTable<M>,
    files: &[Bytes],
    certified: Certified,
) -> Option<Certified>
    requires operations { certified.host.operations ≡ operations.now.signatures }
    requires none { certified.extensions ≡ [] }
    ensures { IfSome result (HasAdded operations.now.signatures certified.host files.now) }
{
    let mut whole = certified;
    if add_all(alloc, operations, files, &mut whole) {
        Some(whole)
    } else {
        whole.release();
        None
    }
}

// Adds the extensions that these contents are to a host without any. Answers whether all of them are certified.
fn add_all<M: Meaning>(
    alloc: Global,
    operations: &OperationTable<M>,
    files: &[Bytes],
    certified: &mut Certified,
) -> bool
    requires operations { certified.old.host.operations ≡ operations.now.signatures }
    requires none { certified.old.extensions ≡ [] }
    ensures { result ≡ true → HasAdded operations.now.signatures certified.old.host files.now certified.new }
{
    'files: for file in files {
        if !add(alloc, operations, file.as_slice(), certified) {
            return false;
        }
    }
    true
}

// Adds an extension. Answers whether the contents are a certified one.
fn add<M: Meaning>(
    alloc: Global,
    operations: &OperationTable<M>,
    contents: &[u8],
    certified: &mut Certified,
) -> bool
    requires { certified.old.host.operations ≡ operations.now.signatures }
    ensures { result ≡ true → Extends operations.now.signatures contents.now certified.old certified.new }
{
    match certified.extend(alloc, contents, operations) {
        Ok(()) => true,
        Err(_) => false,
    }
}
