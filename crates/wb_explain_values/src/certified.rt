//! Which host with extensions are files? Each is certified once more.

ghost use Rattle.std.specs.Prelude.{◌≡◌, IfSome};

use std::alloc::{AllocError, Global};
use wb_compose_files::Certified;
use wb_explain_places::Source;
use wb_operations::{Meaning, OperationTable};

// The host with extensions of these files, that of the host first. None where one of them isn't certified, or memory runs out.
pub(crate) fn certified_of<M: Meaning>(
    alloc: Global,
    files: &[Source<'_>],
    operations: &OperationTable<M>,
) -> Option<Certified>
    ensures { IfSome result (λ made. made.host.operations ≡ operations.now.signatures) }
{
    let host = files.first()?;
    let Ok(certified) = Certified::host(alloc, host.contents, operations) else {
        return None;
    };
    extended(alloc, &files[1..], certified, operations)
}

// A host with the extensions of these files.
fn extended<M: Meaning>(
    alloc: Global,
    files: &[Source<'_>],
    certified: Certified,
    operations: &OperationTable<M>,
) -> Option<Certified>
    requires { certified.host.operations ≡ operations.now.signatures }
    ensures { IfSome result (λ made. made.host ≡ certified.host) }
{
    let mut whole = certified;
    if add_all(alloc, files, &mut whole, operations) {
        Some(whole)
    } else {
        whole.release();
        None
    }
}

// Adds the extensions of these files. Answers whether all of them are certified.
fn add_all<M: Meaning>(
    alloc: Global,
    files: &[Source<'_>],
    certified: &mut Certified,
    operations: &OperationTable<M>,
) -> bool
    requires { certified.old.host.operations ≡ operations.now.signatures }
    ensures { certified.new.host ≡ certified.old.host }
{
    'files: for file in files {
        if !add(alloc, file.contents, certified, operations) {
            return false;
        }
    }
    true
}

// Adds an extension. Answers whether the contents are a certified one.
fn add<M: Meaning>(
    alloc: Global,
    contents: &[u8],
    certified: &mut Certified,
    operations: &OperationTable<M>,
) -> bool
    requires { certified.old.host.operations ≡ operations.now.signatures }
    ensures { certified.new.host ≡ certified.old.host }
{
    certified.extend(alloc, contents, operations).is_ok()
}
