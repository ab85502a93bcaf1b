//! Why nothing is written.

/// What is wrong with a list.
#[derive(Clone, Copy)]
pub(crate) enum Refusal {
    /// The bytes are not a text in UTF-8.
    NotText,
    /// A line that is no comment has no colon.
    NoColon,
    /// There is no setting of this name.
    UnknownSetting,
    /// What a setting is set to is no name of a module, or no choice.
    WrongSetting,
    /// The name of a kind is not a capital letter with up to 39 letters behind it.
    WrongName,
    /// A kind before it has this name.
    TakenName,
    /// There is no such storage, marker or resource.
    UnknownForm,
    /// No line names the crate.
    NoCrate,
    /// No line has a storage.
    NoStorage,
    /// The list is a scene's, and a kind or this line stands before the line that says so.
    LateScene,
    /// The rules are named, and no line says that the list is a scene's.
    NoScene,
    /// A line has a system, and none names the rules.
    NoRules,
    /// A line has a system, and the columns aren't numbers of one variant, some at least, and references of one other.
    MixedData,
}

impl Refusal {
    /// The name of a refusal.
    pub(crate) fn name(self) -> &'static str {
        match self {
            Refusal::NotText => "NotText",
            Refusal::NoColon => "NoColon",
            Refusal::UnknownSetting => "UnknownSetting",
            Refusal::WrongSetting => "WrongSetting",
            Refusal::WrongName => "WrongName",
            Refusal::TakenName => "TakenName",
            Refusal::UnknownForm => "UnknownForm",
            Refusal::NoCrate => "NoCrate",
            Refusal::NoStorage => "NoStorage",
            Refusal::LateScene => "LateScene",
            Refusal::NoScene => "NoScene",
            Refusal::NoRules => "NoRules",
            Refusal::MixedData => "MixedData",
        }
    }
}

/// Why nothing is written.
#[derive(Clone, Copy)]
pub(crate) enum Stop {
    /// The list is refused at a line, counted from 1; what the list as a whole lacks is told of its last line.
    Refused { line: u32, refusal: Refusal },
    /// Memory was wanting.
    Memory,
}
