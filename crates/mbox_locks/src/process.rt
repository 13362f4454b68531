//! The processes of this host, by which it is told who has a lock file.
use crate::holder::{Holder, Named};
use std::alloc::{AllocError, Global};

/// Room for the host's name, which Linux has up to 64 bytes of.
const HOST_SIZE: usize = 256;

/// The clock that counts from the host's boot on, also while it is suspended.
const CLOCK_BOOTTIME: i32 = 7;

/// Who has a lock file, in the form that others read: PROCESS:HOST.
pub fn owner_text(alloc: Global) -> Result<String, AllocError> {
    let mut name = [0; HOST_SIZE];
    let is_known = libc::gethostname(&mut name) == 0;
    let end = name.iter().position(|&byte| byte == 0).unwrap_or(0);
    let host = str::from_utf8(&name[..end]).unwrap_or("");
    let host = if is_known { host } else { "" };
    format!(in alloc; "{}:{}", libc::getpid(), host)
}

/// Who has the lock file of that text, as far as this host can tell. `owner` is the text of the one who asks.
pub fn holder_of(text: &str, owner: &str, is_own_user: bool) -> Holder {
    let named = Named::of(text);
    let own = Named::of(owner);
    let is_own_host = !named.host.is_empty() && named.host == own.host;
    match named.process {
        Some(process) if named.host.is_empty() || is_own_host => {
            let is_own = named.process == own.process;
            Holder::here(is_own, is_gone(process), is_own_user && is_own_host)
        }
        _ => Holder::Unknown,
    }
}

// Whether there is no process of that number. One of which nothing may be known is there.
fn is_gone(process: u32) -> bool {
    libc::getsid(process.cast_signed()) < 0 && os::errno() == libc::ESRCH
}

/// How many seconds ago this host was booted; where nobody knows it never was.
pub fn since_boot() -> u64 {
    let mut time = libc::types::timespec {
        tv_sec: 0,
        tv_nsec: 0,
    };
    if libc::clock_gettime(CLOCK_BOOTTIME, &mut time) != 0 {
        return u64::MAX;
    }
    u64::try_from(time.tv_sec).unwrap_or(u64::MAX)
}
