// Names as people type them: labels with a dot after each; an octet as itself, behind a backslash, or as three digits behind one. What a
// text is, its characters and its length, and what its reader hands back; `totext` writes texts, and `fromtext` reads them.
#![tactic(auto)]

pub mod character;
pub mod measuring;

// Why reading a text refuses: 14 with its place, and 9.
#[derive(Clone, Copy)]
pub enum TextRefusal {
    NotAText(usize),
    NoRoom,
}

// What reading says, the number of octets of the name or why there is none, and the place after it: the text's end behind an answer, and
// where it was behind a refusal.
#[derive(Clone, Copy)]
pub struct TextRead {
    pub outcome: Result<usize, TextRefusal>,
    pub at: usize,
}
