//! The questions of a table.

/// What a row asks of its text.
#[derive(Clone, Copy)]
pub(crate) enum Question {
    /// The tokens.
    Tokens,
    /// The tree.
    Tree,
    /// Whether it is a program by the grammar.
    Syntax,
    /// Whether it is a program that breaks no rule.
    Fault,
    /// The number of the name `main`, and the end of the text.
    Main,
    /// The slots of names.
    Slots,
    /// How constructs see variables.
    Sharing,
    /// What a task copies by rule.
    Copies,
    /// The numbers of criticals.
    Criticals,
    /// The parts of a loop that is shared out.
    Loop,
    /// What its code does.
    Steps,
}

impl Question {
    /// The question that a table asks by a word.
    pub fn by_word(word: &str) -> Option<Question> {
        match word {
            "tokens" => Some(Question::Tokens),
            "tree" => Some(Question::Tree),
            "syntax" => Some(Question::Syntax),
            "fault" => Some(Question::Fault),
            "main" => Some(Question::Main),
            "slots" => Some(Question::Slots),
            "sharing" => Some(Question::Sharing),
            "copies" => Some(Question::Copies),
            "criticals" => Some(Question::Criticals),
            "loop" => Some(Question::Loop),
            "steps" => Some(Question::Steps),
            _ => None,
        }
    }
}
