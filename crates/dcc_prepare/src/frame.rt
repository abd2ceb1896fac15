//! The variables and the memory of a call that begins.

ghost use Rattle.std.specs.Prelude.{◌≡◌, ◌++◌, IfOk};
ghost use Rattle.dcc_prepare.specs.Programs.{place_in};
ghost use Rattle.dcc_prepare.specs.Frames.{holding, params_holding, locals_holding, with_argument, arguments_put};

use crate::program::{Procedure, Variable};
use dcc_c::Base;
use dcc_value::value::memory::store;
use dcc_value::value::{Value, converted, number};
use dcc_value::variable::Binding;
use std::alloc::{AllocError, Global};

impl Variable {
    // The address in a call with this base, where the variable is in memory.
    fn place(&self, base: u16) -> Option<u32>
        ensures { result ≡ place_in base self.now }
    {
        match self.offset {
            Some(offset) => Some(u32::from(base.wrapping_add(offset))),
            None => None,
        }
    }

    // The variable with these bits in a call with this base.
    fn holding(&self, base: u16, bits: u32) -> Binding
        ensures { result ≡ holding base bits self.now }
    {
        let place = self.place(base);
        Binding {
            ty: self.ty,
            is_array: self.is_array,
            is_placed: place.is_some(),
            bits: match place {
                Some(at) => at,
                None => bits,
            },
        }
    }
}

impl Procedure {
    /// The variables of a call with this base and these arguments. A local variable holds the fill, cut or
    /// sign-extended to its type.
    pub fn variables(
        &self,
        alloc: Global,
        base: u16,
        fill: u16,
        arguments: &[Value],
    ) -> Result<Vec<Binding>, AllocError>
        ensures { IfOk result (λ variables. variables.items
            ≡ params_holding base self.now.params.items arguments.now
            ++ locals_holding base fill self.now.locals.items) }
    {
        let count = self.params.len().saturating_add(self.locals.len());
        let mut variables = Vec::with_capacity(alloc, count)?;
        for i in 0..self.params.len().min(arguments.len()) {
            variables.push(self.params[i].holding(base, arguments[i].bits))?;
        }
        for local in &self.locals {
            let first = converted(local.ty, number(Base::Int, u32::from(fill)));
            variables.push(local.holding(base, first.bits))?;
        }
        Ok(variables)
    }

    /// Puts the arguments of placed parameters into memory.
    pub fn put_arguments(&self, base: u16, arguments: &[Value], memory: &mut [u8])
        ensures { memory.new ≡ arguments_put base self.now.params.items arguments.now memory.old }
    {
        for i in 0..self.params.len().min(arguments.len()) {
            put_argument(base, self.params[i], arguments[i], memory);
        }
    }
}

// Puts an argument into memory, where its parameter is in memory.
fn put_argument(base: u16, param: Variable, argument: Value, memory: &mut [u8])
    ensures { memory.new ≡ with_argument base param argument memory.old }
{
    if let Some(at) = param.place(base) {
        store(memory, argument.ty, at, argument.bits);
    }
}
