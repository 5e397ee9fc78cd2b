//! Reading a document.

ghost use Rattle.std.specs.Prelude.{◌≡◌, ◌≤◌, true, IfOk, length, map, filter};
ghost use Rattle.std.specs.List.{list_all};
ghost use Rattle.ntx_num.specs.Answer.{Answers, result_map};
ghost use Rattle.ntx_doc.specs.Document.{document_of};
ghost use Rattle.ntx_doc.specs.Place.{max_depth};
ghost use Rattle.ntx_doc.specs.Shape.{has_numbers_in_range, has_fonts, may_stand_outside, greatest, box_depth, is_box};

use crate::command::Command;
use crate::draft::Draft;
use crate::fault::{DocFault, DocWhy};
use crate::text::next_line;
use ntx_num::Fail;
use std::alloc::Global;

/// The commands of a document. `fonts` is the number of fonts that are loaded.
///
/// A line ends with LF; the last LF may be missing, and one CR directly before an LF is dropped. A line holds bytes 32
/// to 126 and tabs. Spaces and tabs separate its fields. A line without fields is skipped, and so is one whose first
/// field begins with `%`. A number is an optional `-` and 1 to 10 decimal digits. Every other line has one of these forms:
///
/// | Line | Where | Meaning |
/// |---|---|---|
/// | `set NAME V`, `setglue NAME W ST SO SH HO` | outside of boxes | sets a parameter: a number; the width, the stretch, its order, the shrink and its order of glue |
/// | `font K` | anywhere | the current font from here on, 0 at first |
/// | `attr ID V`, `noattr ID` | anywhere | gives an attribute a value, or takes it away |
/// | `hbox`, `hbox to W`, `hbox spread W` | in a box; outside of boxes once | opens a box of its natural width, of width W, or of its natural width and W more |
/// | `end` | in a box | closes the innermost box |
/// | `glue W ST SO SH HO`, `kern W`, `penalty P`, `rule W H D` | in a box | a node |
/// | `char C`, `space` | in a box | a character of the current font; its space glue |
/// | `text` and one or more words | in a box | a character for each byte of each word, and space glue between words |
///
/// If the last line before a `text` line that was not skipped is a `text` line too, space glue comes before the first word.
///
/// Lengths, the stretch and the shrink are within 2^30-1 in absolute value, orders from 0 to 3, K from 0 to 63, C from 0 to
/// 255, P within 2^31-1 in absolute value, ID from 0 to 65535 and its value from -2147483646 to 2147483647. The range of a
/// parameter is `ntx_item`'s.
///
/// # Refusals
///
/// The first line that is refused decides. Lines are counted from 1, including the skipped ones. In this line the first
/// of these reasons counts:
///
/// - `Byte`: a byte that a line may not hold; this includes skipped lines;
/// - `Command`: a first field that is no command, or a command that may not stand there;
/// - `Fields`: another number of fields than the form has, or a word other than `to` and `spread` after `hbox`;
/// - `Name`: no parameter of that sort has this name;
/// - for each number, from the left: `Number`, not a number, and then `Range`, outside its range;
/// - `Font`: `font K` with K not below the number of fonts, or `char`, `space` or `text` if there are no fonts;
/// - `Depth`: a 21st open box.
///
/// `Open`, with the number of the last line: the document ends and a box is not closed.
pub fn read_doc(alloc: Global, bytes: &[u8], fonts: u64) -> Result<Vec<Command>, Fail<DocFault>>
    ensures document { Answers (result_map (λ commands. commands.items) result) (document_of bytes.now fonts) }
    ensures numbers { IfOk result (λ commands. list_all has_numbers_in_range commands.items ≡ true) }
    ensures fonts { IfOk result (λ commands. list_all (has_fonts fonts) commands.items ≡ true) }
    ensures places { IfOk result (λ commands. list_all may_stand_outside commands.items ≡ true) }
    ensures depth { IfOk result (λ commands. greatest (map box_depth commands.items) ≤ max_depth) }
    ensures one_box { IfOk result (λ commands. length (filter is_box commands.items) ≤ 1) }
{
    let mut draft = Draft::new(alloc);
    let mut number: u64 = 0;
    let mut rest = bytes;
    while let Some((line, others)) = next_line(rest) {
        number += 1;
        draft = match draft.after_line(alloc, fonts, line) {
            Ok(after) => after,
            Err(Fail::NoMemory) => return Err(Fail::NoMemory),
            Err(Fail::Is(why)) => return Err(Fail::Is(DocFault { line: number, why })),
        };
        rest = others;
    }
    let Draft { done, groups, .. } = draft;
    if groups.is_empty() {
        Ok(done)
    } else {
        Err(Fail::Is(DocFault {
            line: number,
            why: DocWhy::Open,
        }))
    }
}
