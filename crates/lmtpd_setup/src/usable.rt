//! Whether a mailbox can have a name, by the rule for those of the words and by that for listed ones.

ghost use Rattle.std.specs.Prelude.{◌≡◌, ◌++◌, IfOk};
ghost use Rattle.mail_world.specs.Site.{is_address, is_box_name, is_listed_name};
ghost use Rattle.lmtpd_setup.specs.Faults.{is_lock_name, is_usable_listed_name, is_usable_name};

use lmtp_text::{Site, SiteFault};
use std::alloc::{AllocError, Global};

/// Whether the name, which the words have themselves, is one that a mailbox can have whose file has that suffix.
pub(crate) fn is_usable_name(alloc: Global, suffix: &str, name: &[u8]) -> Result<bool, AllocError>
    ensures { IfOk result (λ usable. usable ≡ is_usable_name suffix.now name.now) }
{
    let fits = is_box_name(alloc, name)?;
    let locks = is_lock_name(alloc, name, suffix)?;
    Ok(fits && !locks)
}

/// The same of a name that is listed.
pub(crate) fn is_usable_listed_name(
    alloc: Global,
    suffix: &str,
    name: &[u8],
) -> Result<bool, AllocError>
    ensures { IfOk result (λ usable. usable ≡ is_usable_listed_name suffix.now name.now) }
{
    let fits = is_listed_name(alloc, name)?;
    let locks = is_lock_name(alloc, name, suffix)?;
    Ok(fits && !is_address(name) && !locks)
}

fn is_box_name(alloc: Global, name: &[u8]) -> Result<bool, AllocError>
    ensures { IfOk result (λ fits. fits ≡ is_box_name name.now) }
{
    match Site::new(alloc, b"h", &[], &[name]) {
        Ok(_) => Ok(true),
        Err(SiteFault::Box) => Ok(false),
        Err(_) => Err(AllocError),
    }
}

fn is_listed_name(alloc: Global, name: &[u8]) -> Result<bool, AllocError>
    ensures { IfOk result (λ fits. fits ≡ is_listed_name name.now) }
{
    match Site::of_list(alloc, b"h", &[], &[name]) {
        Ok(_) => Ok(true),
        Err(SiteFault::Box) => Ok(false),
        Err(_) => Err(AllocError),
    }
}

fn is_address(name: &[u8]) -> bool
    ensures { result ≡ is_address name.now }
{
    name.contains(&b'@')
}

// Whether the file of that name and suffix is called as a lock file is.
fn is_lock_name(alloc: Global, name: &[u8], suffix: &str) -> Result<bool, AllocError>
    ensures { IfOk result (λ is. is ≡ is_lock_name (name.now ++ suffix.now)) }
{
    let mut file = Vec::new(alloc);
    file.extend_from_slice(name)?;
    file.extend_from_slice(suffix.as_bytes())?;
    Ok(file.ends_with(b".lock"))
}
