use crate::command::Command;
use crate::fault::{DocFault, DocWhy};
use crate::read::read_doc;
use ntx_item::{GlueParam, GlueSpec, PackTo, Param};
use ntx_num::Fail;
use std::process::Abort;

/// The fault of a document, or nothing if it is accepted.
pub fn fault_of<R: Abort + AllocGlobal>(rt: &R, bytes: &[u8], fonts: u64) -> Option<DocFault> {
    match read_doc(rt.alloc(), bytes, fonts) {
        Ok(_) => None,
        Err(Fail::Is(fault)) => Some(fault),
        Err(Fail::NoMemory) => panic!(rt; "memory ran out"),
    }
}

/// The commands of an accepted document.
pub fn commands_of<R: Abort + AllocGlobal>(rt: &R, bytes: &[u8], fonts: u64) -> Vec<Command> {
    match read_doc(rt.alloc(), bytes, fonts) {
        Ok(commands) => commands,
        Err(_) => panic!(rt; "refused: {bytes:?}"),
    }
}

/// What a command says.
#[derive(Clone, Copy, Debug, PartialEq, Eq)]
pub enum Seen {
    Set(Param, i64),
    /// The numbers in the order of the fields of `setglue`.
    SetGlue(GlueParam, i64, i64, u8, i64, u8),
    Attr(i64, i64),
    NoAttr(i64),
    /// A box of this width, with this number of commands in it.
    To(i64, usize),
    /// A box that is this much wider than it is by nature, with this number of commands in it.
    Spread(i64, usize),
    /// The numbers in the order of the fields of `glue`.
    Glue(i64, i64, u8, i64, u8),
    Kern(i64),
    Penalty(i64),
    /// Width, height and depth.
    Rule(i64, i64, i64),
    Glyph(u8, u8),
    Space(u8),
}

/// What the command for glue says.
fn glue(spec: &GlueSpec) -> Seen {
    Seen::Glue(
        spec.width,
        spec.stretch,
        spec.stretch_order,
        spec.shrink,
        spec.shrink_order,
    )
}

/// What the command that sets a parameter to glue says.
fn set_glue(param: GlueParam, spec: &GlueSpec) -> Seen {
    Seen::SetGlue(
        param,
        spec.width,
        spec.stretch,
        spec.stretch_order,
        spec.shrink,
        spec.shrink_order,
    )
}

/// What a command says.
fn said_by(command: &Command) -> Seen {
    match command {
        Command::Set(param, value) => Seen::Set(*param, *value),
        Command::SetGlue(param, spec) => set_glue(*param, spec),
        Command::Attr(id, value) => Seen::Attr(*id, *value),
        Command::NoAttr(id) => Seen::NoAttr(*id),
        Command::HBox { to, body } => match to {
            PackTo::Exactly(width) => Seen::To(*width, body.len()),
            PackTo::Additional(width) => Seen::Spread(*width, body.len()),
        },
        Command::Glue(spec) => glue(spec),
        Command::Kern(width) => Seen::Kern(*width),
        Command::Penalty(penalty) => Seen::Penalty(*penalty),
        Command::Rule(size) => Seen::Rule(size.w, size.h, size.d),
        Command::Glyph { font, code } => Seen::Glyph(*font, *code),
        Command::Space { font } => Seen::Space(*font),
    }
}

/// Looks whether commands say this.
fn expect_commands<R: Abort>(rt: &R, found: &[Command], wanted: &[Seen], bytes: &[u8]) {
    assert_eq!(rt; found.len(), wanted.len(), "{bytes:?}");
    for (command, want) in found.iter().zip(wanted.iter()) {
        assert_eq!(rt; said_by(command), *want, "{bytes:?}");
    }
}

/// Looks whether documents give these commands outside of boxes, if there are two fonts.
pub fn expect_outside<R: Abort + AllocGlobal>(rt: &R, rows: &[(&[u8], &[Seen])]) {
    for (bytes, wanted) in rows.iter() {
        let commands = commands_of(rt, bytes, 2);
        expect_commands(rt, commands.as_slice(), wanted, bytes);
    }
}

/// Looks whether documents give one box with these commands, if there are two fonts.
pub fn expect_inside<R: Abort + AllocGlobal>(rt: &R, rows: &[(&[u8], &[Seen])]) {
    for (bytes, wanted) in rows.iter() {
        let commands = commands_of(rt, bytes, 2);
        let [Command::HBox { body, .. }] = commands.as_slice() else {
            panic!(rt; "not one box: {bytes:?}");
        };
        expect_commands(rt, body.as_slice(), wanted, bytes);
    }
}

/// Looks whether documents are refused at this line for this reason, if there are `fonts` fonts.
pub fn expect_faults<R: Abort + AllocGlobal>(rt: &R, rows: &[(&[u8], u64, DocWhy)], fonts: u64) {
    for (bytes, line, why) in rows.iter() {
        let fault = DocFault {
            line: *line,
            why: *why,
        };
        assert_eq!(rt; fault_of(rt, bytes, fonts), Some(fault), "{bytes:?}");
    }
}

#[test]
fn names_each_reason(rt: HostRuntime) {
    let names = [
        (DocWhy::Byte, "Byte"),
        (DocWhy::Command, "Command"),
        (DocWhy::Fields, "Fields"),
        (DocWhy::Name, "Name"),
        (DocWhy::Number, "Number"),
        (DocWhy::Range, "Range"),
        (DocWhy::Font, "Font"),
        (DocWhy::Depth, "Depth"),
        (DocWhy::Open, "Open"),
        (DocWhy::Size, "Size"),
    ];
    for (why, name) in names {
        assert_eq!(rt; why.name(), name);
    }
}
