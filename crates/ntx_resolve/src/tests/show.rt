//! The variables of code as a text: `L`, `U` or `G`, and the last digit of the place of a local or an upvalue.

use crate::code::{Block, Code, Exp, Head, Stat, StatKind, Variable};
use std::alloc::{AllocError, Global};

/// What was shown so far.
#[derive(Drop)]
pub struct Shown {
    /// The text.
    pub text: Vec<u8>,
}

impl Shown {
    /// Nothing yet.
    fn new(alloc: Global) -> Shown {
        Shown {
            text: Vec::new(alloc),
        }
    }

    /// A letter and a place.
    fn placed(&mut self, letter: u8, place: u64) -> Result<(), AllocError> {
        self.text.push(letter)?;
        self.text.push(b'0' + (place % 10) as u8)?;
        Ok(())
    }

    /// A variable.
    fn variable(&mut self, variable: Variable) -> Result<(), AllocError> {
        match variable {
            Variable::Local(place) => self.placed(b'L', place),
            Variable::Upvalue(place) => self.placed(b'U', place),
            Variable::Global => {
                self.text.push(b'G')?;
                Ok(())
            }
        }
    }

    /// A use of a name.
    fn exp(&mut self, exp: &Exp) -> Result<(), AllocError> {
        if let Exp::Prefix(prefix) = exp {
            if let Head::Name(_, variable) = &prefix.head {
                self.variable(*variable)?;
            }
        }
        Ok(())
    }

    /// Uses of names.
    fn exps(&mut self, exps: &[Exp]) -> Result<(), AllocError> {
        for exp in exps {
            self.exp(exp)?;
        }
        Ok(())
    }

    /// What a block returns.
    fn returned(&mut self, block: &Block) -> Result<(), AllocError> {
        match &block.last {
            None => Ok(()),
            Some(last) => self.exps(last.values.as_slice()),
        }
    }

    /// The names in a statement, and what the block in it returns.
    fn stat(&mut self, stat: &Stat) -> Result<(), AllocError> {
        match &stat.kind {
            StatKind::Local(_, values) => self.exps(values.as_slice()),
            StatKind::Do(block) => self.returned(block.get()),
            StatKind::Repeat(block, condition) => {
                self.returned(block.get())?;
                self.exp(condition.get())
            }
            StatKind::NumericFor(_, from, limit, _, block) => {
                self.exp(from.get())?;
                self.exp(limit.get())?;
                self.returned(block.get())
            }
            StatKind::GenericFor(_, values, block) => {
                self.exps(values.as_slice())?;
                self.returned(block.get())
            }
            StatKind::Function(_, variable, _, _) => self.variable(*variable),
            _ => Ok(()),
        }
    }

    /// A block.
    fn block(&mut self, block: &Block) -> Result<(), AllocError> {
        for stat in block.stats.as_slice() {
            self.stat(stat)?;
        }
        self.returned(block)
    }
}

/// The text of a script's block and of those of its functions, by their numbers.
pub fn text_of(alloc: Global, code: &Code) -> Result<Vec<u8>, AllocError> {
    let mut shown = Shown::new(alloc);
    shown.block(&code.block)?;
    for function in code.functions.as_slice() {
        shown.block(&function.block)?;
    }
    Ok(shown.text)
}
