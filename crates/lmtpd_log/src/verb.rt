//! The verb of a command line, as the log shows it.

ghost use Rattle.std.specs.Prelude.{◌≡◌, map};
ghost use Rattle.mail_world.specs.Commands.{is_word};
ghost use Rattle.lmtpd_log.specs.Verbs.{ends_word, known_verb, verb_among, verb_word};

/// The verbs of SMTP and LMTP.
const KNOWN: [&str; 12] = [
    "LHLO", "HELO", "EHLO", "MAIL", "RCPT", "DATA", "RSET", "NOOP", "QUIT", "VRFY", "EXPN", "HELP",
];

/// The verb where it is one of SMTP's or LMTP's (RFC 5321, 4.1; RFC 2033), `other` for another one, and `long` where
/// the line was too long, and so is empty here. Nothing else of the line is shown.
pub fn verb_of(line: &[u8]) -> &'static str
    ensures { result.now ≡ verb_word line.now }
{
    if line.is_empty() {
        return "long";
    }
    known_verb(line.trim_ascii())
}

// The verb that the text begins with, where it is known.
fn known_verb(text: &[u8]) -> &'static str
    ensures { result.now ≡ known_verb text.now }
{
    let size = text.len().min(4);
    if !ends_word(&text[size..]) {
        return "other";
    }
    verb_among(&KNOWN, &text[..size])
}

// The one of these that the text is.
fn verb_among(names: &[&'static str], text: &[u8]) -> &'static str
    ensures { result.now ≡ verb_among (map (λ name. name.now) names.now) text.now }
{
    for name in names {
        if is_word(name.as_bytes(), text) {
            return *name;
        }
    }
    "other"
}

fn is_word(word: &[u8], text: &[u8]) -> bool
    ensures { result ≡ is_word word.now text.now }
{
    text.eq_ignore_ascii_case(word)
}

fn ends_word(text: &[u8]) -> bool
    ensures { result ≡ ends_word text.now }
{
    match text {
        [] => true,
        [first, ..] => *first == b' ',
    }
}
