//! The state of a document that is read line by line.

ghost use Rattle.std.specs.Prelude.{◌≡◌, ℕ, ◌∷◌, Ok};
ghost use Rattle.ntx_num.specs.Answer.{Answers, result_map, result_and_then};
ghost use Rattle.ntx_doc.specs.declared.form.Form.TheVariants as form;
ghost use Rattle.ntx_doc.specs.Text.{fields_of};
ghost use Rattle.ntx_doc.specs.Instruction.{Put};
ghost use Rattle.ntx_doc.specs.Place as place;
ghost use Rattle.ntx_doc.specs.Lines as specified;

use crate::command::Command;
use crate::fault::DocWhy;
use crate::form::Form;
use crate::group::Group;
use crate::material::{box_width, code, font_number, glue, kern, penalty, rule};
use crate::settings::{attr, no_attr, set, set_glue};
use crate::text::{are_plain, next_field};
use ntx_num::Fail;
use sqlite_items::Items;
use std::alloc::Global;

/// The most boxes that are open at once.
const MAX_DEPTH: usize = 20;

/// What the lines read so far say.
#[derive(Drop)]
pub struct Draft {
    /// The finished commands outside of any box.
    pub done: Vec<Command>,
    /// The open boxes, the outermost first.
    pub groups: Vec<Group>,
    /// Whether a box was opened.
    pub has_box: bool,
    /// The number of the current font.
    pub font: u8,
    /// Whether the last line that was not skipped is `text`.
    pub after_text: bool,
}

impl Draft {
    ghost use Rattle.ntx_doc.specs.Draft.{place_of};

    /// The draft before the first line.
    pub fn new(alloc: Global) -> Draft
        ensures { place_of result ≡ place.first_place }
    {
        Draft {
            done: Vec::new(alloc),
            groups: Vec::new(alloc),
            has_box: false,
            font: 0,
            after_text: false,
        }
    }

    /// The draft after this line, if there are `fonts` fonts.
    pub fn after_line(self, alloc: Global, fonts: u64, line: &[u8]) -> Result<Draft, Fail<DocWhy>>
        ensures { Answers (result_map place_of result)
            (specified.after_line fonts line.now (place_of self)) }
    {
        if !are_plain(line) {
            return Err(Fail::Is(DocWhy::Byte));
        }
        match next_field(line) {
            None => Ok(self),
            Some((word, arguments)) => self.after_fields(alloc, fonts, word, arguments),
        }
    }

    /// The draft after a line with the first field `word`; `arguments` holds the other fields.
    fn after_fields(
        self,
        alloc: Global,
        fonts: u64,
        word: &[u8],
        arguments: &[u8],
    ) -> Result<Draft, Fail<DocWhy>>
        ensures { Answers (result_map place_of result)
            (specified.after_fields fonts (word.now ∷ fields_of arguments.now) (place_of self)) }
    {
        if is_comment(word) {
            Ok(self)
        } else {
            self.after_command(alloc, fonts, word, arguments)
        }
    }

    /// The draft after a line of the form whose first field is `word`.
    fn after_command(
        self,
        alloc: Global,
        fonts: u64,
        word: &[u8],
        arguments: &[u8],
    ) -> Result<Draft, Fail<DocWhy>>
        ensures { Answers (result_map place_of result)
            (specified.after_command fonts word.now (fields_of arguments.now) (place_of self)) }
    {
        match Form::of_word(word) {
            Some(form) if self.allows(form) => self.after_form(alloc, fonts, form, arguments),
            _ => Err(Fail::Is(DocWhy::Command)),
        }
    }

    /// Whether a line of this form may stand here.
    fn allows(&self, form: Form) -> bool
        ensures { result ≡ specified.may_stand form (place_of self.now) }
    {
        let at_top = self.groups.is_empty();
        match form {
            Form::Set | Form::SetGlue => at_top,
            Form::Font | Form::Attr | Form::NoAttr => true,
            Form::HBox => !at_top || !self.has_box,
            _ => !at_top,
        }
    }

    /// The draft after a line of this form, which may stand here, with the fields of `arguments`.
    fn after_form(
        self,
        alloc: Global,
        fonts: u64,
        form: Form,
        arguments: &[u8],
    ) -> Result<Draft, Fail<DocWhy>>
        ensures { Answers (result_map place_of result)
            (specified.carry_out fonts form (fields_of arguments.now) (place_of self)) }
    {
        match form {
            Form::Set => self.with_command(set(arguments)),
            Form::SetGlue => self.with_command(set_glue(arguments)),
            Form::Font => self.with_font(fonts, arguments),
            Form::Attr => self.with_command(attr(arguments)),
            Form::NoAttr => self.with_command(no_attr(arguments)),
            Form::HBox => self.opened(alloc, arguments),
            Form::End => self.closed(arguments),
            Form::Glue => self.with_command(glue(arguments)),
            Form::Kern => self.with_command(kern(arguments)),
            Form::Penalty => self.with_command(penalty(arguments)),
            Form::Rule => self.with_command(rule(arguments)),
            Form::Char => self.with_char(fonts, arguments),
            Form::Space => self.with_space(fonts, arguments),
            Form::Text => self.with_text(fonts, arguments),
        }
    }

    /// The draft with one more command, at the end of the innermost open box, or outside of boxes if none is open.
    pub fn put(self, command: Command) -> Result<Draft, Fail<DocWhy>>
        ensures { Answers (result_map place_of result)
            (Ok (place.put command (place_of self))) }
    {
        let mut draft = self;
        match draft.groups.pop() {
            None => draft.done.push(command)?,
            Some(Group { to, mut body }) => {
                body.push(command)?;
                draft.groups.push(Group { to, body })?;
            }
        }
        draft.after_text = false;
        Ok(draft)
    }

    /// The draft with the command of a line, or the line's refusal.
    fn with_command(self, command: Result<Command, DocWhy>) -> Result<Draft, Fail<DocWhy>>
        ensures { (fonts : ℕ) → Answers (result_map place_of result)
            (result_and_then (result_map Put command) (λ i. place.follow fonts i (place_of self))) }
    {
        match command {
            Ok(command) => self.put(command),
            Err(why) => Err(Fail::Is(why)),
        }
    }

    /// The draft after `font K`, which changes the current font.
    fn with_font(self, fonts: u64, arguments: &[u8]) -> Result<Draft, Fail<DocWhy>>
        ensures { Answers (result_map place_of result)
            (specified.carry_out fonts form.Font (fields_of arguments.now) (place_of self)) }
    {
        let font = match font_number(arguments) {
            Ok(font) => font,
            Err(why) => return Err(Fail::Is(why)),
        };
        if u64::from(font) >= fonts {
            return Err(Fail::Is(DocWhy::Font));
        }
        let mut draft = self;
        draft.font = font;
        draft.after_text = false;
        Ok(draft)
    }

    /// The draft after `hbox` with these fields, which opens a box.
    fn opened(self, alloc: Global, arguments: &[u8]) -> Result<Draft, Fail<DocWhy>>
        ensures { (fonts : ℕ) → Answers (result_map place_of result)
            (specified.carry_out fonts form.HBox (fields_of arguments.now) (place_of self)) }
    {
        let to = match box_width(arguments) {
            Ok(to) => to,
            Err(why) => return Err(Fail::Is(why)),
        };
        if self.groups.len() >= MAX_DEPTH {
            return Err(Fail::Is(DocWhy::Depth));
        }
        let mut draft = self;
        let body = Items::new(alloc);
        draft.groups.push(Group { to, body })?;
        draft.has_box = true;
        draft.after_text = false;
        Ok(draft)
    }

    /// The draft after `end`, which closes the innermost box.
    fn closed(self, arguments: &[u8]) -> Result<Draft, Fail<DocWhy>>
        ensures { (fonts : ℕ) → Answers (result_map place_of result)
            (specified.carry_out fonts form.End (fields_of arguments.now) (place_of self)) }
    {
        if next_field(arguments).is_some() {
            return Err(Fail::Is(DocWhy::Fields));
        }
        let mut draft = self;
        match draft.groups.pop() {
            None => Err(Fail::Is(DocWhy::Command)),
            Some(Group { to, body }) => draft.put(Command::HBox { to, body }),
        }
    }

    /// The draft after `char C`, which puts a character of the current font.
    fn with_char(self, fonts: u64, arguments: &[u8]) -> Result<Draft, Fail<DocWhy>>
        ensures { Answers (result_map place_of result)
            (specified.carry_out fonts form.Char (fields_of arguments.now) (place_of self)) }
    {
        let code = match code(arguments) {
            Ok(code) => code,
            Err(why) => return Err(Fail::Is(why)),
        };
        if fonts == 0 {
            return Err(Fail::Is(DocWhy::Font));
        }
        let font = self.font;
        self.put(Command::Glyph { font, code })
    }

    /// The draft after `space`, which puts the space glue of the current font.
    fn with_space(self, fonts: u64, arguments: &[u8]) -> Result<Draft, Fail<DocWhy>>
        ensures { Answers (result_map place_of result)
            (specified.carry_out fonts form.Space (fields_of arguments.now) (place_of self)) }
    {
        if next_field(arguments).is_some() {
            return Err(Fail::Is(DocWhy::Fields));
        }
        if fonts == 0 {
            return Err(Fail::Is(DocWhy::Font));
        }
        let font = self.font;
        self.put(Command::Space { font })
    }
}

/// Whether a line with this first field is a comment: the field begins with a percent sign.
fn is_comment(word: &[u8]) -> bool
    ensures { result ≡ specified.is_comment word.now }
{
    word.first() == Some(&b'%')
}
