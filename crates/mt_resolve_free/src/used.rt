ghost use Rattle.std.specs.Prelude.{◌≡◌, ◌∷◌, [], ◌++◌, IfOk};
ghost use Rattle.mt_eval_meaning.specs.Free as spec;
ghost use Rattle.mt_syntax.specs.Gathering.{all_of};

use crate::names::{push_name, without};
use mt_tree::{NoMemory, Text, VarKind};
use std::alloc::Global;
use std::marker::Model;

// What a part of a tree uses and declares. Contracts see the four lists of names.
#[derive(Drop)]
pub(crate) struct Used {
    // The names that it uses and doesn't bind.
    free: Vec<Text>,
    // Those that it binds by `let` and `const` in the block or body where it stands.
    here: Vec<Text>,
    // The functions that it declares at the top of a body; of a function its own name.
    functions: Vec<Text>,
    // Its `var` names.
    variables: Vec<Text>,
}

impl Model for Used {
    ghost use Rattle.mt_eval_meaning.specs.Free.{Used as Uses};

    ghost Value = { Uses };

    ghost view = { λ used. record { free = used.free.items; here = used.here.items; functions = used.functions.items; variables = used.variables.items } };
}

impl Used {
    // Nothing. Takes no memory.
    pub(crate) fn none(alloc: Global) -> Used
        ensures { result ≡ spec.none }
    {
        Used {
            free: Vec::new(alloc),
            here: Vec::new(alloc),
            functions: Vec::new(alloc),
            variables: Vec::new(alloc),
        }
    }

    // These names alone, as free ones. Takes no memory.
    pub(crate) fn using(alloc: Global, names: Vec<Text>) -> Used
        ensures { result ≡ spec.using_only names.items }
    {
        Used {
            free: names,
            here: Vec::new(alloc),
            functions: Vec::new(alloc),
            variables: Vec::new(alloc),
        }
    }

    // The name of a declaration, with what its value uses.
    pub(crate) fn declared(alloc: Global, name: &Text, value: Used) -> Result<Used, NoMemory>
        ensures { IfOk result (λ used. used ≡ record { free = name.now ∷ value.free; here = name.now ∷ []; functions = []; variables = [] }) }
    {
        let mut free = Vec::new(alloc);
        push_name(&mut free, name)?;
        let mut here = Vec::new(alloc);
        push_name(&mut here, name)?;
        let mut behind = value.free;
        free.append(&mut behind)?;
        Ok(Used {
            free,
            here,
            functions: Vec::new(alloc),
            variables: Vec::new(alloc),
        })
    }

    // The free names alone. Takes no memory.
    pub(crate) fn free_only(self, alloc: Global) -> Used
        ensures { result ≡ spec.using_only self.free }
    {
        Used::using(alloc, self.free)
    }

    // The free names.
    pub(crate) fn into_free(self) -> Vec<Text>
        ensures { result.items ≡ self.free }
    {
        self.free
    }

    // Both, one behind the other.
    pub(crate) fn joined(mut self, mut other: Used) -> Result<Used, NoMemory>
        ensures { IfOk result (λ both. both ≡ spec.joined self other) }
    {
        self.free.append(&mut other.free)?;
        self.here.append(&mut other.here)?;
        self.functions.append(&mut other.functions)?;
        self.variables.append(&mut other.variables)?;
        Ok(self)
    }

    // All of them, one behind the other.
    #[tactic(auto, using(crate::proofs::Joins::all_more))]
    pub(crate) fn all(alloc: Global, each: Vec<Used>) -> Result<Used, NoMemory>
        ensures { IfOk result (λ all. all ≡ all_of spec.none spec.joined each.items) }
    {
        let mut all = Used::none(alloc);
        for used in each {
            all = all.joined(used)?;
        }
        Ok(all)
    }

    // What stands inside a statement declares its variables alone around it. Takes no memory.
    pub(crate) fn enclosed(self, alloc: Global) -> Used
        ensures { result ≡ spec.enclosed self }
    {
        Used {
            free: self.free,
            here: Vec::new(alloc),
            functions: Vec::new(alloc),
            variables: self.variables,
        }
    }

    // What a declaration by that word declares. Takes no memory.
    pub(crate) fn declared_by(self, alloc: Global, word: VarKind) -> Used
        ensures { result ≡ spec.declared_by word self }
    {
        match word {
            VarKind::Var => Used {
                free: self.free,
                here: Vec::new(alloc),
                functions: self.functions,
                variables: self.here,
            },
            VarKind::Let | VarKind::Const => self,
        }
    }

    // What a block with this in it uses and declares around it.
    pub(crate) fn in_block(self, alloc: Global) -> Result<Used, NoMemory>
        ensures { IfOk result (λ used. used ≡ spec.enclosed (record self { free = spec.without self.here self.free })) }
    {
        let free = without(alloc, self.here.as_slice(), self.free.as_slice())?;
        Ok(Used {
            free,
            here: Vec::new(alloc),
            functions: Vec::new(alloc),
            variables: self.variables,
        })
    }

    // What the handler of a `try` uses and declares around it, where what was thrown has the name.
    pub(crate) fn in_handler(self, alloc: Global, name: &Text) -> Result<Used, NoMemory>
        ensures { IfOk result (λ used. used ≡ spec.enclosed (record self { free = spec.without (name.now ∷ []) self.free })) }
    {
        let mut bound = Vec::new(alloc);
        push_name(&mut bound, name)?;
        let free = without(alloc, bound.as_slice(), self.free.as_slice())?;
        Ok(Used {
            free,
            here: Vec::new(alloc),
            functions: Vec::new(alloc),
            variables: self.variables,
        })
    }

    // What an `if` uses and declares around it.
    pub(crate) fn of_if(
        alloc: Global,
        test: Used,
        body: Used,
        other: Used,
    ) -> Result<Used, NoMemory>
        ensures { IfOk result (λ used. used ≡ spec.enclosed (spec.joined test (spec.joined body other))) }
    {
        let branches = body.joined(other)?;
        Ok(test.joined(branches)?.enclosed(alloc))
    }

    // What a `for` uses and declares around it: the names that its start declares are variables.
    pub(crate) fn of_for(
        alloc: Global,
        mut start: Used,
        mut test: Used,
        mut step: Used,
        mut body: Used,
    ) -> Result<Used, NoMemory>
        ensures { IfOk result (λ used. used ≡ spec.enclosed (record (spec.joined start (spec.joined test (spec.joined step body))) { variables = start.here ++ body.variables })) }
    {
        step.free.append(&mut body.free)?;
        test.free.append(&mut step.free)?;
        start.free.append(&mut test.free)?;
        start.here.append(&mut body.variables)?;
        Ok(Used {
            free: start.free,
            here: Vec::new(alloc),
            functions: Vec::new(alloc),
            variables: start.here,
        })
    }

    // What a function uses that this body and these parameters don't bind, its own name inside left aside.
    pub(crate) fn in_function(
        mut self,
        alloc: Global,
        mut parameters: Vec<Text>,
        own: Vec<Text>,
    ) -> Result<Used, NoMemory>
        ensures { IfOk result (λ used. used ≡ record { free = spec.without (parameters.items ++ (self.variables ++ (self.functions ++ self.here))) self.free; here = []; functions = own.items; variables = [] }) }
    {
        self.functions.append(&mut self.here)?;
        self.variables.append(&mut self.functions)?;
        parameters.append(&mut self.variables)?;
        let free = without(alloc, parameters.as_slice(), self.free.as_slice())?;
        Ok(Used {
            free,
            here: Vec::new(alloc),
            functions: own,
            variables: Vec::new(alloc),
        })
    }

    // The free names of a function expression, which has its own name inside.
    pub(crate) fn in_expression(self, alloc: Global) -> Result<Used, NoMemory>
        ensures { IfOk result (λ used. used ≡ spec.using_only (spec.without self.functions self.free)) }
    {
        let free = without(alloc, self.functions.as_slice(), self.free.as_slice())?;
        Ok(Used::using(alloc, free))
    }
}
