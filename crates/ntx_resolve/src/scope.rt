//! The names in scope.

ghost use Rattle.std.specs.Prelude.{◌∷◌, [], ◌≡◌, ◌≤◌, ◌<◌, ◌-◌, length, take, slice_get, Some, ◌≢◌, ℕ, MatchOption, OnOk};
ghost use Rattle.std.specs.Bool.{Decides};
ghost use Rattle.ntx_num.specs.declared.answer.Fail.TheVariants.{Is};
ghost use Rattle.ntx_syntax.specs.declared.fault.SyntaxWhy.TheVariants.{Locals};
ghost use Rattle.ntx_resolve.specs.Limit.{excess_of_names};
ghost use Rattle.ntx_resolve.specs.Scopes as scopes;
ghost use Rattle.ntx_resolve.specs.Scopes.{IsVariable, IsLast};
ghost use Rattle.ntx_resolve.specs.inner.Allows.{Allows};

use crate::code::Variable;
use crate::names::copied;
use ntx_num::Fail;
use ntx_syntax::{LocalName, Name, SyntaxFault, SyntaxWhy};
use std::alloc::{AllocError, Global};
use std::marker::Model;

/// How many named local variables of one function can be in scope at once.
const MAX_LOCALS: usize = 200;

/// The fault of a name that is one too many.
fn too_many(local: &LocalName) -> Fail<SyntaxFault>
    ensures { result ≡ Is (record { line = local.now.line; why = Locals }) }
{
    Fail::Is(SyntaxFault {
        line: local.line,
        why: SyntaxWhy::Locals,
    })
}

/// The names in scope at a place of a script.
#[derive(Drop)]
pub struct Scope {
    /// The names of all local variables in scope, the oldest first; a name that is hidden by a later one is among them.
    names: Vec<Name>,
    /// How many of them are of enclosing functions.
    from: usize,
}

/// Where a block or a function begins: what [`Scope::leave`] goes back to.
#[derive(Clone, Copy, Debug, PartialEq, Eq)]
pub struct Mark {
    /// How many names are in scope.
    pub names: usize,
    /// How many of them are of enclosing functions.
    pub from: usize,
}

impl Model for Scope {
    ghost use Rattle.ntx_resolve.specs.Scopes.{Scope};

    ghost Value = { Scope };

    ghost use Rattle.ntx_resolve.specs.inner.Names.{scope_of, IsWithin};

    ghost view = { scope_of };

    ghost invariant = { IsWithin };
}

impl Scope {
    /// The scope at the beginning of a script.
    pub fn outermost(alloc: Global) -> Scope
        ensures { result ≡ scopes.outermost }
    {
        Scope {
            names: Vec::new(alloc),
            from: 0,
        }
    }

    /// The mark of this place.
    pub fn mark(&self) -> Mark
        ensures names { result.names ≡ length self.now.names }
        ensures from { result.from ≡ self.now.from }
        ensures within { result.from ≤ result.names }
    {
        Mark {
            names: self.names.len(),
            from: self.from,
        }
    }

    /// Enters a function that is made in this scope.
    pub fn enter(&mut self)
        ensures { self.new ≡ scopes.enter self.old }
    {
        self.from = self.names.len();
    }

    /// Goes back to a mark: names declared since are no longer in scope. The mark counts no more names than are in scope.
    pub fn leave(&mut self, mark: Mark)
        requires within { mark.from ≤ mark.names }
        requires declared { mark.names ≤ length self.old.names }
        ensures { self.new ≡ record { names = take mark.names self.old.names; from = mark.from } }
    {
        self.names.truncate(mark.names);
        self.from = mark.from;
    }

    /// Which variable the name is.
    pub fn variable(&self, name: &Name) -> Variable
        ensures { IsVariable name.now self.now result }
    {
        match self.place_of(name.as_slice()) {
            None => Variable::Global,
            Some(place) => {
                if place < self.from {
                    Variable::Upvalue(place as u64)
                } else {
                    Variable::Local((place - self.from) as u64)
                }
            }
        }
    }

    /// The last place of the name.
    fn place_of(&self, name: &[u8]) -> Option<usize>
        ensures { MatchOption result ((place : ℕ) → slice_get self.now.names place ≢ Some name.now) (λ place. IsLast name.now self.now.names place) }
    {
        let mut place = self.names.len();
        while place > 0 {
            place -= 1;
            if self.is_at(place, name) {
                return Some(place);
            }
        }
        None
    }

    /// Whether this place has the name.
    fn is_at(&self, place: usize, name: &[u8]) -> bool
        requires { place < length self.now.names }
        ensures { Decides result (slice_get self.now.names place ≡ Some name.now) }
    {
        self.names[place].as_slice() == name
    }

    /// Declares these names. If memory runs out, nothing is promised of the scope.
    pub fn declare(&mut self, alloc: Global, names: &[LocalName]) -> Result<(), AllocError>
        ensures { OnOk result (self.new ≡ scopes.declare self.old names.now) }
    {
        for local in names {
            self.names.push(copied(alloc, &local.name)?)?;
        }
        Ok(())
    }

    /// Declares this name. If memory runs out, nothing is promised of the scope.
    pub fn declare_one(&mut self, alloc: Global, local: &LocalName) -> Result<(), AllocError>
        ensures { OnOk result (self.new ≡ scopes.declare self.old (local.now ∷ [])) }
    {
        self.names.push(copied(alloc, &local.name)?)?;
        Ok(())
    }

    /// How many names of the function itself are in scope.
    fn locals(&self) -> usize
        ensures count { result ≡ scopes.locals self.now }
        ensures within { self.now.from ≤ length self.now.names }
    {
        self.names.len() - self.from
    }

    /// Whether these names can be declared.
    ///
    /// # Refusals
    ///
    /// Locals, with the line of the first of them that would be the 201st name of the function in scope.
    pub fn has_room_for(&self, names: &[LocalName]) -> Result<(), Fail<SyntaxFault>>
        ensures allows { Allows (excess_of_names (scopes.locals self.now) names.now) result }
        ensures within { self.now.from ≤ length self.now.names }
    {
        let mut count = self.locals();
        for local in names {
            if count >= MAX_LOCALS {
                return Err(too_many(local));
            }
            count += 1;
        }
        Ok(())
    }

    /// Whether this name can be declared.
    ///
    /// # Refusals
    ///
    /// Locals, with its line, if it would be the 201st name of the function in scope.
    pub fn has_room_for_one(&self, local: &LocalName) -> Result<(), Fail<SyntaxFault>>
        ensures allows { Allows (excess_of_names (scopes.locals self.now) (local.now ∷ [])) result }
        ensures within { self.now.from ≤ length self.now.names }
    {
        if self.locals() >= MAX_LOCALS {
            return Err(too_many(local));
        }
        Ok(())
    }
}
