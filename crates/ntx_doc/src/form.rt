//! The forms of lines, each known by its first field.

ghost use Rattle.std.specs.Prelude.{◌≡◌};
ghost use Rattle.ntx_doc.specs.Forms.{word_of, form_of_word};

/// A form of line, named as its first field.
#[derive(Clone, Copy, Debug, PartialEq, Eq)]
pub enum Form {
    /// `set NAME V`
    Set,
    /// `setglue NAME W ST SO SH HO`
    SetGlue,
    /// `font K`
    Font,
    /// `attr ID V`
    Attr,
    /// `noattr ID`
    NoAttr,
    /// `hbox`, `hbox to W` or `hbox spread W`
    HBox,
    /// `end`
    End,
    /// `glue W ST SO SH HO`
    Glue,
    /// `kern W`
    Kern,
    /// `penalty P`
    Penalty,
    /// `rule W H D`
    Rule,
    /// `char C`
    Char,
    /// `space`
    Space,
    /// `text` and words
    Text,
}

/// Each form.
const FORMS: [Form; 14] = [
    Form::Set,
    Form::SetGlue,
    Form::Font,
    Form::Attr,
    Form::NoAttr,
    Form::HBox,
    Form::End,
    Form::Glue,
    Form::Kern,
    Form::Penalty,
    Form::Rule,
    Form::Char,
    Form::Space,
    Form::Text,
];

impl Form {
    /// The first field of its lines.
    fn word(self) -> &'static str
        ensures { result.now ≡ word_of self }
    {
        match self {
            Form::Set => "set",
            Form::SetGlue => "setglue",
            Form::Font => "font",
            Form::Attr => "attr",
            Form::NoAttr => "noattr",
            Form::HBox => "hbox",
            Form::End => "end",
            Form::Glue => "glue",
            Form::Kern => "kern",
            Form::Penalty => "penalty",
            Form::Rule => "rule",
            Form::Char => "char",
            Form::Space => "space",
            Form::Text => "text",
        }
    }

    /// The form of the lines with this first field, if there is one.
    pub fn of_word(word: &[u8]) -> Option<Form>
        ensures { result ≡ form_of_word word.now }
    {
        FORMS
            .iter()
            .copied()
            .find(|form| form.word().as_bytes() == word)
    }
}
