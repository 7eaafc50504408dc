// The keywords of the forms.
ghost use Rattle.std.specs.Prelude.{◌≡◌, map};
ghost use Rattle.cov_script.specs.Lines.{keyword_of, looked_up};

/// The first field of a line.
#[derive(Clone, Copy, Debug, PartialEq, Eq)]
pub(crate) enum Keyword {
    Option,
    Constraint,
    Prefer,
    Default,
    Complete,
    Open,
    Side,
    MakeDir,
    MakeFile,
    Rename,
    Move,
    Remove,
    Insert,
    Delete,
    Replace,
    Show,
    List,
    Refresh,
    Commit,
    Drop,
    Cat,
    Checkout,
    Alt,
    Cond,
    Where,
    Upgrade,
    Analyse,
    Nearest,
    Log,
    Blame,
    Past,
    PastOut,
}

/// Each keyword with its bytes.
const WORDS: [(&[u8], Keyword); 32] = [
    (b"option", Keyword::Option),
    (b"constraint", Keyword::Constraint),
    (b"prefer", Keyword::Prefer),
    (b"default", Keyword::Default),
    (b"complete", Keyword::Complete),
    (b"open", Keyword::Open),
    (b"side", Keyword::Side),
    (b"mkdir", Keyword::MakeDir),
    (b"mkfile", Keyword::MakeFile),
    (b"rename", Keyword::Rename),
    (b"move", Keyword::Move),
    (b"remove", Keyword::Remove),
    (b"insert", Keyword::Insert),
    (b"delete", Keyword::Delete),
    (b"replace", Keyword::Replace),
    (b"show", Keyword::Show),
    (b"list", Keyword::List),
    (b"refresh", Keyword::Refresh),
    (b"commit", Keyword::Commit),
    (b"drop", Keyword::Drop),
    (b"cat", Keyword::Cat),
    (b"checkout", Keyword::Checkout),
    (b"alt", Keyword::Alt),
    (b"cond", Keyword::Cond),
    (b"where", Keyword::Where),
    (b"upgrade", Keyword::Upgrade),
    (b"analyse", Keyword::Analyse),
    (b"nearest", Keyword::Nearest),
    (b"log", Keyword::Log),
    (b"blame", Keyword::Blame),
    (b"past", Keyword::Past),
    (b"pastout", Keyword::PastOut),
];

impl Keyword {
    pub(crate) fn read(bytes: &[u8]) -> Option<Keyword>
        ensures { result ≡ keyword_of bytes.now }
    {
        look_up(&WORDS, bytes)
    }
}

// The keyword whose bytes these are, None where none of the words is.
fn look_up(mut words: &[(&[u8], Keyword)], bytes: &[u8]) -> Option<Keyword>
    ensures { result ≡ looked_up (map (λ w. (w.0.now, w.1)) words.entry.now) bytes.now }
{
    while let [word, rest @ ..] = words {
        if bytes == word.0 {
            return Some(word.1);
        }
        words = rest;
    }
    None
}
