//! Lines of text: their words, set in characters with space glue between them.

ghost use Rattle.std.specs.Prelude.{◌≡◌, Ok};
ghost use Rattle.ntx_num.specs.Answer.{Answers, result_map};
ghost use Rattle.ntx_doc.specs.declared.form.Form.TheVariants as form;
ghost use Rattle.ntx_doc.specs.Text.{fields_of};
ghost use Rattle.ntx_doc.specs.Words as words;
ghost use Rattle.ntx_doc.specs.Place.{put_all};
ghost use Rattle.ntx_doc.specs.Lines as specified;

use crate::command::Command;
use crate::draft::Draft;
use crate::fault::DocWhy;
use crate::text::next_field;
use ntx_num::Fail;

impl Draft {
    ghost use Rattle.ntx_doc.specs.Draft.{place_of};

    /// The draft after `text` and words. Space glue stands between two words, and before the first one if the line before,
    /// without the skipped ones, is `text` too.
    pub fn with_text(self, fonts: u64, arguments: &[u8]) -> Result<Draft, Fail<DocWhy>>
        ensures { Answers (result_map place_of result)
            (specified.carry_out fonts form.Text (fields_of arguments.now) (place_of self)) }
    {
        let Some((word, others)) = next_field(arguments) else {
            return Err(Fail::Is(DocWhy::Fields));
        };
        if fonts == 0 {
            return Err(Fail::Is(DocWhy::Font));
        }
        let mut draft = if self.after_text {
            self.with_spaced(arguments)?
        } else {
            self.with_word(word)?.with_spaced(others)?
        };
        draft.after_text = true;
        Ok(draft)
    }

    /// The draft with the characters of a word.
    fn with_word(self, word: &[u8]) -> Result<Draft, Fail<DocWhy>>
        ensures { Answers (result_map place_of result)
            (Ok (put_all (words.glyphs_of (place_of self).font word.now) (place_of self))) }
    {
        let font = self.font;
        let mut draft = self;
        for code in word {
            draft = draft.put(Command::Glyph { font, code: *code })?;
        }
        Ok(draft)
    }

    /// The draft with space glue and the characters of each word of a line.
    fn with_spaced(self, line: &[u8]) -> Result<Draft, Fail<DocWhy>>
        ensures { Answers (result_map place_of result)
            (Ok (put_all (words.spaced (place_of self).font (fields_of line.now)) (place_of self))) }
    {
        let font = self.font;
        let mut draft = self;
        let mut rest = line;
        while let Some((word, others)) = next_field(rest) {
            draft = draft.put(Command::Space { font })?.with_word(word)?;
            rest = others;
        }
        Ok(draft)
    }
}
