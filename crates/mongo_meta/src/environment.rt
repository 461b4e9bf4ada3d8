ghost use Rattle.std.specs.Prelude.{◌≡◌, option_copied, IfOk, IfErr};
ghost use Rattle.mongo_meta.specs.Variables.{first_value};

use mongo_bson::{BsonFault, Items, Text, TryClone};
use std::alloc::Global;

/// A variable of the environment.
#[derive(Debug, Drop, PartialEq)]
pub struct Variable {
    /// The variable's name.
    pub name: Text,
    /// The variable's value.
    pub value: Text,
}

impl Variable {
    /// A copy.
    pub fn try_clone(&self, alloc: Global) -> Result<Variable, BsonFault>
        ensures copied { IfOk result (λ variable. variable ≡ self.now) }
        ensures refused { IfErr result (λ fault. fault ≡ BsonFault.OutOfMemory) }
    {
        Ok(Variable {
            name: self.name.try_clone(alloc)?,
            value: self.value.try_clone(alloc)?,
        })
    }
}

impl TryClone for Variable {
    fn try_clone(&self, alloc: Global) -> Result<Variable, BsonFault> {
        Variable::try_clone(self, alloc)
    }
}

/// The variables of an environment. Where a name stands twice, the first counts.
pub type Variables = Items<Variable>;

/// What a process can see of where it runs.
#[derive(Debug, Drop, PartialEq)]
pub struct Environment {
    /// The variables.
    pub variables: Variables,
    /// Whether there is a file `/.dockerenv`.
    pub dockerenv: bool,
}

impl Environment {
    ghost use Rattle.mongo_meta.specs.Variables.{variable_value, number_under, is_set};

    /// A copy.
    pub fn try_clone(&self, alloc: Global) -> Result<Environment, BsonFault>
        ensures copied { IfOk result (λ environment. environment ≡ self.now) }
        ensures refused { IfErr result (λ fault. fault ≡ BsonFault.OutOfMemory) }
    {
        Ok(Environment {
            variables: self.variables.try_clone(alloc)?,
            dockerenv: self.dockerenv,
        })
    }

    // The value of a variable, or None where there is none of this name.
    pub(crate) fn value(&self, name: &str) -> Option<&str>
        ensures { option_copied result ≡ variable_value name.now self.now }
    {
        first_value(self.variables.as_slice(), name)
    }

    // A copy of that value.
    pub(crate) fn text(&self, alloc: Global, name: &str) -> Result<Option<Text>, BsonFault>
        ensures text { IfOk result (λ text. text ≡ variable_value name.now self.now) }
        ensures refused { IfErr result (λ fault. fault ≡ BsonFault.OutOfMemory) }
    {
        match self.value(name) {
            Some(value) => Ok(Some(Text::from_slice(alloc, value)?)),
            None => Ok(None),
        }
    }

    // The number that a variable's value is, or None where it is none or not there.
    pub(crate) fn number(&self, name: &str) -> Option<i32>
        ensures { result ≡ number_under name.now self.now }
    {
        match self.value(name) {
            Some(value) => value.parse().ok(),
            None => None,
        }
    }

    // Whether a variable is there and not empty.
    pub(crate) fn is_set(&self, name: &str) -> bool
        ensures { result ≡ is_set name.now self.now }
    {
        match self.value(name) {
            Some(value) => !value.is_empty(),
            None => false,
        }
    }
}

// The value of the first variable of this name.
fn first_value<'a>(variables: &'a [Variable], name: &str) -> Option<&'a str>
    ensures { option_copied result ≡ first_value name.now variables.now }
{
    for variable in variables {
        if variable.name.as_str() == name {
            return Some(variable.value.as_str());
        }
    }
    None
}
