ghost use Rattle.std.specs.Prelude.{◌≡◌};
ghost use Rattle.mongo_sasl.specs.Rules.{first_broken};

use mongo_wire::ArgumentFault;

// A rule that a mechanism has for a credential: its fault, and whether the credential breaks it.
#[derive(Clone, Copy, Drop)]
pub(crate) struct Rule {
    pub(crate) fault: ArgumentFault,
    pub(crate) broken: bool,
}

impl Rule {
    ghost use Rattle.std.specs.Prelude.{◌≡◌};
    ghost use Rattle.mongo_sasl.specs.Rules.{rule};

    // The rule of this fault, and whether it is broken.
    pub(crate) fn new(fault: ArgumentFault, broken: bool) -> Rule
        ensures { result ≡ rule fault broken }
    {
        Rule { fault, broken }
    }
}

// The fault of the first broken rule.
pub(crate) fn first_broken(rules: &[Rule]) -> Result<(), ArgumentFault>
    ensures { result ≡ first_broken rules.now }
{
    for rule in rules {
        if rule.broken {
            return Err(rule.fault);
        }
    }
    Ok(())
}
