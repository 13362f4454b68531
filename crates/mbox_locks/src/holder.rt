//! Whom a lock file names, and when it is left behind.
ghost use Rattle.std.specs.Prelude.{◌≡◌, ℕ, None, IfSome};
ghost use Rattle.mbox_locks.specs.Holder.{NamesProcess, age_at, holder_here, is_left, is_opened};

/// A lock file that is older is left behind, unless a process of this host has it.
const STALE_SECONDS: u64 = 300;

/// The largest number that a process may have.
const PROCESS_LIMIT: u32 = 2_147_483_647;

const BLANKS: [char; 3] = [' ', '\t', '\n'];

/// Who has a lock file, as far as this host can tell.
#[derive(Clone, Copy, PartialEq, Eq)]
pub enum Holder {
    /// Nobody who could be asked for: it names no process, or one of another host, or one that is gone and nobody knows
    /// whether the server's user said so.
    Unknown,
    /// A process of this host.
    Alive,
    /// Nobody: its process is gone, or is the one who asks and has none.
    Nobody,
}

impl Holder {
    /// Of a lock file that names a process, and no other host than this. It is believed at once where it is the
    /// server's user's and names this host.
    pub fn here(is_own: bool, is_gone: bool, is_believed: bool) -> Holder
        ensures { result ≡ holder_here is_own is_gone is_believed }
    {
        if is_believed && (is_own || is_gone) {
            Holder::Nobody
        } else if is_gone {
            Holder::Unknown
        } else {
            Holder::Alive
        }
    }
}

/// Whether a lock file of that holder and age is left behind, on a host that was booted that many seconds ago. What is
/// older than that no process has that is there now.
pub fn is_left_behind(holder: Holder, age: u64, since_boot: u64) -> bool
    ensures { result ≡ is_left holder age since_boot }
{
    match holder {
        Holder::Unknown => age > STALE_SECONDS,
        Holder::Alive => age > STALE_SECONDS && age > since_boot,
        Holder::Nobody => true,
    }
}

/// Whether a lock file of that age is opened, for what it says. Another user's isn't before its age alone says that it
/// stays: who owns a file may have its opening wait.
pub fn is_opened(is_own_user: bool, age: u64) -> bool
    ensures { result ≡ is_opened is_own_user age }
{
    is_own_user || age > STALE_SECONDS
}

/// How many seconds old a lock file is, by the time that it was given and by the one at which the system changed it,
/// all in seconds since 1970. A time ahead of now is no age: then the other counts.
pub fn age_at(now: u64, modified: u64, changed: u64) -> u64
    ensures { result ≡ age_at now modified changed }
{
    let touched = if modified > now { changed } else { modified };
    now.saturating_sub(touched)
}

/// What a lock file says: a process, and its host, which is empty where it names none.
#[derive(Clone, Copy)]
pub struct Named<'a> {
    pub process: Option<u32>,
    pub host: &'a str,
}

impl<'a> Named<'a> {
    /// Of its text: PROCESS or PROCESS:HOST, with blanks around each.
    pub fn of(text: &'a str) -> Named<'a> {
        let (process, host) = match text.split_once(':') {
            Some(parts) => parts,
            None => (text, ""),
        };
        Named {
            process: process_of(process.trim_matches(BLANKS)),
            host: host.trim_matches(BLANKS),
        }
    }
}

// The process that a number names, in decimal and without leading zeros.
fn process_of(digits: &str) -> Option<u32>
    ensures some { IfSome result (λ process. NamesProcess digits.now process) }
    ensures none { result ≡ None → (process : ℕ) → NamesProcess digits.now process → ⊥ }
{
    let bytes = digits.as_bytes();
    if bytes.first() == Some(&b'0') || bytes.first() == Some(&b'+') {
        return None;
    }
    match digits.parse::<u32>() {
        Ok(process) if process <= PROCESS_LIMIT => Some(process),
        _ => None,
    }
}
